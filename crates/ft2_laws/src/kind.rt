// The kinds of an FT2 frame, and their numbers.
ghost use Rattle.std.specs.Prelude.{◌≡◌};
ghost use Rattle.std.specs.Option.{ok_or};
ghost use Rattle.formats.specs.declared.refusal.WriteRefusal.TheVariants.{NoSuchKind};
ghost use Rattle.ft2_laws.specs.Frames.{kind_number, kind_of};

use formats::refusal::WriteRefusal;

#[derive(Clone, Copy, PartialEq, Eq, Debug)]
pub enum Kind {
    // as many user octets as the fixed length says
    Fixed = 1,
    // a header, whose first octet counts the body octets that follow it
    Variable = 2,
}

impl From<Kind> for u8 {
    ghost from_gives = { λ kind number. number ≡ kind_number kind };

    fn from(kind: Kind) -> u8 {
        kind as u8
    }
}

impl TryFrom<u8> for Kind {
    type Error = WriteRefusal;

    ghost try_from_gives = { λ number kind. kind ≡ ok_or (kind_of number) NoSuchKind };

    fn try_from(number: u8) -> Result<Kind, WriteRefusal> {
        match number {
            1 => Ok(Kind::Fixed),
            2 => Ok(Kind::Variable),
            _ => Err(WriteRefusal::NoSuchKind),
        }
    }
}
