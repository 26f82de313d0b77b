use crate::keyed::keyed;
use crate::reading::Reading;
use crate::refusal::{Miskeyed, Part};
use std::test::Fail;

#[test]
fn octets_of_a_reading(rt: HostRuntime) -> Result<(), Fail> {
    let reading = Reading::new(1207, 400, 9531)?;
    assert_eq!(rt; <[u8; 7]>::from(reading), [4, 183, 1, 144, 0, 37, 59]);
    assert_eq!(rt;
        Reading::try_from(&[4, 183, 1, 144, 0, 37, 59][..])?,
        reading
    );
    Ok(())
}

#[test]
fn what_is_keyed(rt: HostRuntime) -> Result<(), Fail> {
    assert_eq!(rt;
        keyed(" 1207 40.0\t95.31 ")?,
        Reading::new(1207, 400, 9531)?
    );
    assert_eq!(rt; keyed("1207 40.0").err(), Some(Miskeyed::WrongCount));
    assert_eq!(rt;
        keyed("1207 40.0 95.3").err(),
        Some(Miskeyed::NoNumber(Part::Viscosity))
    );
    assert_eq!(rt;
        keyed("0 40.0 95.31").err(),
        Some(Miskeyed::OutOfLimits(Part::Batch))
    );
    assert_eq!(rt;
        keyed("7 39.9 95.31").err(),
        Some(Miskeyed::OutOfLimits(Part::Temperature))
    );
    Ok(())
}
