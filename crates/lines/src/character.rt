// The FT1.2 character: start mark 0, eight data marks lowest bit first, a parity mark, stop mark 1.
ghost use Rattle.std.specs.Prelude.{◌≡◌, ◌<◌};
ghost use Rattle.lines.specs.Characters.{at_place, bit, character, framed, mark_if, parity_mark};
ghost use Rattle.lines.specs.Entries.{eleven, entry, status_of};

use crate::mark::Mark;
use crate::reversal::exchange;

// Mark 1 where the test holds, else mark 0.
pub fn mark_if(test: bool) -> Mark
    ensures { result ≡ mark_if test }
{
    if test { Mark::One } else { Mark::Zero }
}

// Data mark of the bit `k` of an octet, the lowest being 0.
fn data_mark(octet: u8, k: u8) -> Mark
    requires { k < 8 }
    ensures { result ≡ mark_if (bit octet k) }
{
    mark_if((octet >> k) & 1 == 1)
}

// With it the ones among data and parity marks are even in number.
pub fn parity_mark(octet: u8) -> Mark
    ensures { result ≡ parity_mark octet }
{
    mark_if(octet.count_ones() % 2 == 1)
}

// The mark at a place of a character with the parity and stop mark given: 0 is the start mark, 1 to 8 are data marks,
// 9 is the parity mark and 10 the stop mark; past these there is none.
fn framed_mark(octet: u8, parity: Mark, stop: Mark, place: u8) -> Option<Mark>
    ensures { result ≡ at_place (framed parity stop octet) place }
{
    match place {
        0 => Some(Mark::Zero),
        1..=8 => Some(data_mark(octet, place - 1)),
        9 => Some(parity),
        10 => Some(stop),
        _ => None,
    }
}

// The eleven marks of an octet's character.
pub fn character(octet: u8) -> [Mark; 11]
    ensures { result ≡ character octet }
{
    [
        Mark::Zero,
        data_mark(octet, 0),
        data_mark(octet, 1),
        data_mark(octet, 2),
        data_mark(octet, 3),
        data_mark(octet, 4),
        data_mark(octet, 5),
        data_mark(octet, 6),
        data_mark(octet, 7),
        parity_mark(octet),
        Mark::One,
    ]
}

// The mark at a place of an octet's character, counted from 0; past the eleventh there is none.
pub fn character_mark(octet: u8, place: u8) -> Option<Mark>
    ensures { result ≡ at_place (character octet) place }
{
    framed_mark(octet, parity_mark(octet), Mark::One, place)
}

// What was received of a character, by the status octet of its record entry.
#[derive(Clone, Copy, PartialEq, Eq, Debug)]
pub enum Status {
    Sound,
    ParityReversed,
    StopZero,
    Idle,
    Bad,
}

// 0 is sound, 1 has the parity mark reversed, 2 has stop mark 0, 3 is an idle line, and 4 to 255 are bad.
impl From<u8> for Status {
    ghost from_gives = { λ octet r. r ≡ status_of octet };

    fn from(octet: u8) -> Status {
        match octet {
            0 => Status::Sound,
            1 => Status::ParityReversed,
            2 => Status::StopZero,
            3 => Status::Idle,
            _ => Status::Bad,
        }
    }
}

// One of eleven equal marks.
fn repeated_mark(mark: Mark, place: u8) -> Option<Mark>
    ensures { result ≡ at_place (eleven mark) place }
{
    if place < 11 { Some(mark) } else { None }
}

// The mark at a place of a record entry, counted from 0; past the eleventh there is none.
pub fn entry_mark(status: Status, octet: u8, place: u8) -> Option<Mark>
    ensures { result ≡ at_place (entry status octet) place }
{
    match status {
        Status::Sound => character_mark(octet, place),
        Status::ParityReversed => framed_mark(
            octet,
            exchange(parity_mark(octet)),
            Mark::One,
            place,
        ),
        Status::StopZero => framed_mark(octet, parity_mark(octet), Mark::Zero, place),
        Status::Idle => repeated_mark(Mark::One, place),
        Status::Bad => repeated_mark(Mark::Bad, place),
    }
}
