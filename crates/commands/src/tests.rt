use crate::command::{Command, Order};
use crate::octet::octet;
use crate::words::octets;
use lines::mark::Mark;
use stacks::layer::Layer;
use stacks::record::{Record, RecordKind};
use stacks::stack::Stack;
use std::test::Fail;

#[test]
fn two_hex_digits(rt: HostRuntime) {
    assert_eq!(rt; octet("a5"), Some(0xa5));
    assert_eq!(rt; octet("0F"), Some(15));
    assert_eq!(rt; octet("g0"), None);
    assert_eq!(rt; octet("123"), None);
}

#[test]
fn octets_of_words(rt: HostRuntime) -> Result<(), Fail> {
    let Ok(octets) = octets(rt.alloc(), "a5 0F\n".split_whitespace()) else {
        return Err(Fail::new("not read"));
    };
    assert_eq!(rt; octets.as_slice(), [0xa5, 15].as_slice());
    Ok(())
}

#[test]
fn an_order(rt: HostRuntime) -> Result<(), Fail> {
    match Command::read(rt.alloc(), " sampling\n") {
        Ok(Command::Work(order)) => {
            assert_eq!(rt; order, Order::Put(Layer::Sampling));
            Ok(())
        },
        _ => Err(Fail::new("not read")),
    }
}

#[test]
fn marks_to_the_end(rt: HostRuntime) -> Result<(), Fail> {
    let octets = [0, 1, 2];
    let record = Record::new(RecordKind::Marks, &octets)?;
    let mut line = Stack::Bare(record);
    let marks = line.take_marks(rt.alloc(), 4)?;
    assert_eq!(rt; marks.len(), 3);
    assert_eq!(rt; marks.get(2).copied(), Some(Mark::Bad));
    Ok(())
}
