// Frames worked by hand, and refusals.
use crate::format::Ft2;
use checks::octet::octet_bits;
use formats::format::{Progress, ReadFormat, WriteFormat};
use formats::refusal::{SettingsRefusal, WriteRefusal};
use lines::mark::Mark;
use std::process::Abort;
use std::test::Fail;

// The marks written are those of the octets expected, and are read as a frame of the kind.
fn expect(rt: &impl Abort, kind: u8, octets: &[u8], frame: &[u8]) -> Result<(), Fail> {
    let mut format = Ft2::new(1, 2)?;
    let mut marks = [2u8; 48];
    let count = format.write(kind, octets, &mut marks)?;
    assert_eq!(rt; Some(count), frame.len().checked_mul(8));
    let mut last = Progress::Open;
    for (octet, marks) in frame.iter().zip(marks.chunks(8)) {
        for (bit, mark) in octet_bits(*octet).iter().zip(marks) {
            assert_eq!(rt; *mark, u8::from(*bit));
            last = format.add(Mark::from(*mark))?;
        }
    }
    assert_eq!(rt; last, Progress::Frame(kind));
    Ok(())
}

#[test]
fn frames_by_hand(rt: HostRuntime) -> Result<(), Fail> {
    expect(&rt, 1, &[0x01], &[0x27, 0x01, 0x34])?;
    expect(&rt, 2, &[0x00, 0x05], &[0x14, 0x00, 0x05, 0x88])?;
    expect(
        &rt,
        2,
        &[0x01, 0x05, 0x01],
        &[0x14, 0x01, 0x05, 0x85, 0x01, 0x34],
    )
}

fn refused(rt: &impl Abort, fixed_length: u16, header_length: u16) {
    let refusal = Ft2::new(fixed_length, header_length).err();
    assert_eq!(rt; refusal.map(SettingsRefusal::number), Some(1));
}

#[test]
fn settings_outside_their_limits(rt: HostRuntime) {
    refused(&rt, 0, 2);
    refused(&rt, 31, 2);
    refused(&rt, 1, 0);
    refused(&rt, 1, 16);
}

#[test]
fn first_octet_is_the_body_count(rt: HostRuntime) -> Result<(), Fail> {
    let format = Ft2::new(1, 2)?;
    let mut marks = [2u8; 48];
    let refusal = format.write(2, &[0x02, 0x05, 0x01], &mut marks).err();
    assert_eq!(rt; refusal.map(WriteRefusal::number), Some(8));
    Ok(())
}
