// The kinds of an FT1.2 frame.
ghost use Rattle.std.specs.Prelude.{◌≡◌};
ghost use Rattle.std.specs.Option.{ok_or};
ghost use Rattle.formats.specs.declared.refusal.WriteRefusal.TheVariants.{NoSuchKind};
ghost use Rattle.ft12_laws.specs.Frames.{kind_number, kind_of};

use formats::refusal::WriteRefusal;

// Each by the number by which callers know it.
#[derive(Clone, Copy, PartialEq, Eq, Debug)]
pub enum Kind {
    // as many user octets as the fixed length says
    Fixed = 1,
    // its length stands in the frame
    Variable = 2,
    // the single character E5
    SingleE5 = 3,
    // the single character A2
    SingleA2 = 4,
}

impl From<Kind> for u8 {
    ghost from_gives = { λ kind r. r ≡ kind_number kind };

    fn from(kind: Kind) -> u8 {
        kind as u8
    }
}

impl TryFrom<u8> for Kind {
    type Error = WriteRefusal;

    ghost try_from_gives = { λ number r. r ≡ ok_or (kind_of number) NoSuchKind };

    fn try_from(number: u8) -> Result<Kind, WriteRefusal> {
        match number {
            1 => Ok(Kind::Fixed),
            2 => Ok(Kind::Variable),
            3 => Ok(Kind::SingleE5),
            4 => Ok(Kind::SingleA2),
            _ => Err(WriteRefusal::NoSuchKind),
        }
    }
}
