// Small examples of records and layers.
use crate::character_record::CharacterRecord;
use crate::line::Line;
use crate::mark::Mark;
use crate::mark_record::MarkRecord;
use crate::refusal::RecordRefusal;
use crate::reversal::Reversed;
use crate::sampling::{Kept, Sampled};
use std::process::Abort;
use std::test::Fail;

fn expect<L: Line>(rt: &impl Abort, line: &mut L, marks: &[Mark]) {
    for mark in marks {
        assert_eq!(rt; line.take(), Some(*mark));
    }
    assert_eq!(rt; line.take(), None);
}

#[test]
fn mark_record_with_a_bad_octet(rt: HostRuntime) {
    let octets = [0, 1, 2, 255, 1];
    let mut line = MarkRecord::new(&octets);
    expect(
        &rt,
        &mut line,
        &[Mark::Zero, Mark::One, Mark::Bad, Mark::Bad, Mark::One],
    );
}

#[test]
fn odd_record_is_refused(rt: HostRuntime) -> Result<(), Fail> {
    match CharacterRecord::new(&[0, 0xE5, 1]) {
        Ok(_) => Err(Fail::new("an odd record was taken")),
        Err(refusal) => {
            assert_eq!(rt; refusal.number(), 2);
            Ok(())
        },
    }
}

#[test]
fn two_layers_over_a_record(rt: HostRuntime) {
    let octets = [1, 1, 1, 0, 0, 0, 0, 1, 0, 1, 1];
    let mut line = Reversed::new(Sampled::new(MarkRecord::new(&octets)));
    expect(&rt, &mut line, &[Mark::Zero, Mark::One, Mark::Bad]);
    let (_, kept) = line.into_below().into_below();
    assert_eq!(rt; kept, Kept::Couple(Mark::One, Mark::One));
}
