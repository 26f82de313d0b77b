// What can be wrong with an FT1.2 frame, by layers.
ghost use Rattle.std.specs.Prelude.{◌≡◌};
ghost use Rattle.ft12_laws.specs.Faults.{character_cause, ft12_cause};
ghost use Rattle.ft12_laws.specs.declared.fault.CharacterFault.TheVariants as character;
ghost use Rattle.ft12_laws.specs.declared.fault.Ft12Fault.TheVariants as frame;

use formats::fault::{Fault, Layer, LineFault};

// In a character.
#[derive(Clone, Copy, PartialEq, Eq, Debug)]
pub enum CharacterFault {
    Line(LineFault),
    StartMark,
    ParityMark,
    StopMark,
}

// In a frame.
#[derive(Clone, Copy, PartialEq, Eq, Debug)]
pub enum Ft12Fault {
    Character(CharacterFault),
    FirstCharacter,
    LengthsDiffer,
    FourthCharacter,
    Sum,
    EndCharacter,
}

impl From<LineFault> for CharacterFault {
    ghost from_gives = { λ fault r. r ≡ character.Line fault };

    fn from(fault: LineFault) -> CharacterFault {
        CharacterFault::Line(fault)
    }
}

impl From<CharacterFault> for Ft12Fault {
    ghost from_gives = { λ fault r. r ≡ frame.Character fault };

    fn from(fault: CharacterFault) -> Ft12Fault {
        Ft12Fault::Character(fault)
    }
}

// told by cases: one that holds the fault of a layer below has no number of its own
impl Fault for CharacterFault {
    ghost cause = { character_cause };

    fn number(&self) -> u8 {
        match *self {
            CharacterFault::Line(below) => below.number(),
            CharacterFault::StartMark => 22,
            CharacterFault::ParityMark => 23,
            CharacterFault::StopMark => 24,
        }
    }

    fn layer(&self) -> Layer {
        match *self {
            CharacterFault::Line(below) => below.layer(),
            CharacterFault::StartMark | CharacterFault::ParityMark | CharacterFault::StopMark =>
                Layer::Character,
        }
    }
}

impl Fault for Ft12Fault {
    ghost cause = { ft12_cause };

    fn number(&self) -> u8 {
        match *self {
            Ft12Fault::Character(below) => below.number(),
            Ft12Fault::FirstCharacter => 25,
            Ft12Fault::LengthsDiffer => 26,
            Ft12Fault::FourthCharacter => 27,
            Ft12Fault::Sum => 28,
            Ft12Fault::EndCharacter => 29,
        }
    }

    fn layer(&self) -> Layer {
        match *self {
            Ft12Fault::Character(below) => below.layer(),
            Ft12Fault::FirstCharacter
            | Ft12Fault::LengthsDiffer
            | Ft12Fault::FourthCharacter
            | Ft12Fault::Sum
            | Ft12Fault::EndCharacter => Layer::Frame,
        }
    }
}
