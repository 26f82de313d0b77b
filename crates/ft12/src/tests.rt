// The frames worked by hand, written and read back.
use crate::format::Ft12;
use formats::fault::Fault;
use formats::format::{Progress, ReadFormat, WriteFormat};
use lines::mark::Mark;
use std::test::Fail;

// The marks of a buffer read by a format: the last verdict, or the number of the fault.
fn read(format: &mut Ft12, marks: &[u8]) -> Result<Progress, u8> {
    let mut last = Progress::Open;
    for octet in marks {
        last = format
            .add(Mark::from(*octet))
            .map_err(|fault| fault.number())?;
    }
    Ok(last)
}

#[test]
fn single_characters(rt: HostRuntime) -> Result<(), Fail> {
    let mut format = Ft12::new(2)?;
    let mut marks = [7u8; 12];
    assert_eq!(rt; format.write(3, &[], &mut marks)?, 11);
    assert_eq!(rt; marks, [0, 1, 0, 1, 0, 0, 1, 1, 1, 1, 1, 7]);
    assert_eq!(rt; read(&mut format, &marks[0..11]), Ok(Progress::Frame(3)));
    assert_eq!(rt; format.write(4, &[], &mut marks)?, 11);
    assert_eq!(rt; marks, [0, 0, 1, 0, 0, 0, 1, 0, 1, 1, 1, 7]);
    assert_eq!(rt; read(&mut format, &marks[0..11]), Ok(Progress::Frame(4)));
    Ok(())
}

#[test]
fn fixed_frame(rt: HostRuntime) -> Result<(), Fail> {
    let mut format = Ft12::new(2)?;
    let mut marks = [0u8; 55];
    assert_eq!(rt; format.write(1, &[0x49, 0x01], &mut marks)?, 55);
    assert_eq!(rt; read(&mut format, &marks[0..33]), Ok(Progress::Octet(0x01)));
    assert_eq!(rt; read(&mut format, &marks[33..55]), Ok(Progress::Frame(1)));
    Ok(())
}

#[test]
fn variable_frames(rt: HostRuntime) -> Result<(), Fail> {
    let mut format = Ft12::new(1)?;
    let mut marks = [0u8; 88];
    assert_eq!(rt; format.write(2, &[], &mut marks)?, 66);
    assert_eq!(rt; read(&mut format, &marks[0..66]), Ok(Progress::Frame(2)));
    assert_eq!(rt; format.write(2, &[0xFF, 0x02], &mut marks)?, 88);
    assert_eq!(rt; read(&mut format, &marks), Ok(Progress::Frame(2)));
    // the sum is 01
    assert_eq!(rt;
        &marks[66..77],
        [0, 1, 0, 0, 0, 0, 0, 0, 0, 1, 1].as_slice()
    );
    Ok(())
}

#[test]
fn faults(rt: HostRuntime) -> Result<(), Fail> {
    let mut format = Ft12::new(1)?;
    assert_eq!(rt;
        read(&mut format, &[0, 1, 0, 1, 0, 0, 1, 1, 1, 0, 1]),
        Err(23)
    );
    assert_eq!(rt;
        read(&mut format, &[0, 0, 1, 1, 0, 0, 1, 1, 1, 1, 1]),
        Err(25)
    );
    Ok(())
}

#[test]
fn refused_settings(rt: HostRuntime) {
    assert!(rt; Ft12::new(0).is_err());
    assert!(rt; Ft12::new(256).is_err());
    assert!(rt; Ft12::new(255).is_ok());
}
