// Judging a character by its position in the frame.
ghost use Rattle.std.specs.Prelude.{◌≡◌, ◌<◌};
ghost use Rattle.formats.specs.Answers.{Tells};
ghost use Rattle.ft12_laws.specs.Faults.{ft12_cause};
ghost use Rattle.ft12_laws.specs.Reading as reading;

use formats::format::Progress;
use ft12_laws::fault::Ft12Fault;
use ft12_laws::kind::Kind;
use ft12_laws::reading::Place;

// The verdict on a whole character.
pub fn judge(place: Place, octet: u8) -> Result<Progress, Ft12Fault>
    ensures { Tells ft12_cause (reading.judge place octet) result }
{
    match place {
        Place::First => match octet {
            0x10 | 0x68 => Ok(Progress::Open),
            0xE5 => Ok(Progress::Frame(Kind::SingleE5.into())),
            0xA2 => Ok(Progress::Frame(Kind::SingleA2.into())),
            _ => Err(Ft12Fault::FirstCharacter),
        },
        Place::Again(length) if octet != length => Err(Ft12Fault::LengthsDiffer),
        Place::Fourth(_) if octet != 0x68 => Err(Ft12Fault::FourthCharacter),
        Place::Sum(_, sum) if octet != sum => Err(Ft12Fault::Sum),
        Place::End(_) if octet != 0x16 => Err(Ft12Fault::EndCharacter),
        Place::Length | Place::Again(_) | Place::Fourth(_) | Place::Sum(_, _) => Ok(Progress::Open),
        Place::User(_, _, _) => Ok(Progress::Octet(octet)),
        Place::End(kind) => Ok(Progress::Frame(kind.into())),
    }
}

// Where so many user octets are to come.
fn users(kind: Kind, count: u8, sum: u8) -> Place
    ensures { result ≡ reading.users kind count sum }
{
    match count {
        0 => Place::Sum(kind, sum),
        _ => Place::User(kind, count - 1, sum),
    }
}

// The position of the character that follows.
pub fn next(fixed_length: u8, place: Place, octet: u8) -> Place
    ensures { result ≡ reading.next fixed_length place octet }
{
    match place {
        Place::First if octet == 0x10 => users(Kind::Fixed, fixed_length, 0),
        Place::First => Place::Length,
        Place::Length => Place::Again(octet),
        Place::Again(length) => Place::Fourth(length),
        Place::Fourth(length) => users(Kind::Variable, length, 0),
        Place::User(kind, left, sum) => users(kind, left, sum.wrapping_add(octet)),
        Place::Sum(kind, _) | Place::End(kind) => Place::End(kind),
    }
}
