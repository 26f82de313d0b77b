// How far a frame has been read.
use crate::kind::Kind;

// The position in a frame of the character that is being read.
#[derive(Clone, Copy, PartialEq, Eq, Debug)]
pub enum Place {
    First,
    Length,
    // the length once more
    Again(u8),
    // the start character once more, before so many user octets
    Fourth(u8),
    // a user octet: how many come after it, and the sum of those before it
    User(Kind, u8, u8),
    // the sum of all user octets is due
    Sum(Kind, u8),
    End(Kind),
}

// The part in a character of the mark that comes next.
#[derive(Clone, Copy, PartialEq, Eq, Debug)]
pub enum Part {
    Start,
    // a data mark: how many come after it, and the octet so far, the latest bit on top
    Bit(u8, u8),
    Parity(u8),
    Stop(u8),
}

// What a reader keeps of the list so far.
#[derive(Clone, Copy, PartialEq, Eq, Debug)]
pub struct Reading {
    pub place: Place,
    pub part: Part,
}
