// What the desk answers, and why an order is not carried out.
ghost use Rattle.std.specs.Prelude.{◌≡◌, Some};
ghost use Rattle.desk.specs.Answers.{refusal_number};
ghost use Rattle.desk.specs.Messages.{refusal_reason, undone_text};
ghost use Rattle.desk.specs.declared.answer.DeskRefusal.TheVariants as refusal;
ghost use Rattle.desk.specs.declared.answer.Undone.TheVariants.{Refused, NoMemory};

use formats::refusal::{SettingsRefusal, WriteRefusal};
use hearing::answer::{Heard, Standing};
use hearing::fault::ToldFault;
use hearing::refusal::ReceiverRefusal;
use std::alloc::AllocError;
use std::fmt;

// counts and no slices, since of a desk that its answer borrows no contract could say what it then holds
#[derive(Clone, Copy, PartialEq, Eq, Debug)]
pub enum DeskAnswer {
    // FT1.2 was chosen: its fixed length, its gap and its distance
    Ft12 {
        fixed_length: u16,
        gap: u16,
        distance: u8,
    },
    // FT2 was chosen: its fixed length, its header length, its gap and its distance
    Ft2 {
        fixed_length: u16,
        header_length: u16,
        gap: u16,
        distance: u8,
    },
    NewReceiver,
    MarkBuffer(u16),
    FrameBuffer(u16),
    // so many marks stand at the beginning of the mark buffer
    Wrote(usize),
    // the whole mark buffer is to be shown
    Marks,
    // the whole frame buffer is to be shown
    Frame,
    // how many marks a listen took, and what ended it, whatever the format
    Heard(Heard<ToldFault>),
    // so many user octets stand at the beginning of the frame buffer
    Looked(usize),
    Released,
    Stands(Standing),
}

// A refusal of the library's.
#[derive(Clone, Copy, PartialEq, Eq, Debug)]
pub enum DeskRefusal {
    Settings(SettingsRefusal),
    Receiver(ReceiverRefusal),
    Write(WriteRefusal),
}

impl DeskRefusal {
    // The number by which callers know the refusal.
    pub fn number(self) -> u8
        ensures { result ≡ refusal_number self }
    {
        match self {
            DeskRefusal::Settings(refusal) => refusal.number(),
            DeskRefusal::Receiver(refusal) => refusal.number(),
            DeskRefusal::Write(refusal) => refusal.number(),
        }
    }
}

// The reason.
impl fmt::Display for DeskRefusal {
    ghost output = { λ refusal. Some (refusal_reason refusal) };

    fn fmt<W: fmt::Write>(&self, f: &mut fmt::Formatter<W>) -> fmt::Result {
        match self {
            DeskRefusal::Settings(refusal) => write!(f, "{refusal}"),
            DeskRefusal::Receiver(refusal) => write!(f, "{refusal}"),
            DeskRefusal::Write(refusal) => write!(f, "{refusal}"),
        }
    }
}

// Why an order is not carried out.
#[derive(Clone, Copy, PartialEq, Eq, Debug)]
pub enum Undone {
    Refused(DeskRefusal),
    // no format was chosen yet
    NoFormat,
    NoMemory,
}

impl From<SettingsRefusal> for Undone {
    ghost from_gives = { λ e r. r ≡ Refused (refusal.Settings e) };

    fn from(refusal: SettingsRefusal) -> Undone {
        Undone::Refused(DeskRefusal::Settings(refusal))
    }
}

impl From<ReceiverRefusal> for Undone {
    ghost from_gives = { λ e r. r ≡ Refused (refusal.Receiver e) };

    fn from(refusal: ReceiverRefusal) -> Undone {
        Undone::Refused(DeskRefusal::Receiver(refusal))
    }
}

impl From<WriteRefusal> for Undone {
    ghost from_gives = { λ e r. r ≡ Refused (refusal.Write e) };

    fn from(refusal: WriteRefusal) -> Undone {
        Undone::Refused(DeskRefusal::Write(refusal))
    }
}

impl From<AllocError> for Undone {
    ghost from_gives = { λ _ r. r ≡ NoMemory };

    fn from(_e: AllocError) -> Undone {
        Undone::NoMemory
    }
}

impl fmt::Display for Undone {
    ghost output = { λ undone. Some (undone_text undone) };

    fn fmt<W: fmt::Write>(&self, f: &mut fmt::Formatter<W>) -> fmt::Result {
        match self {
            Undone::Refused(refusal) => write!(f, "refused {}: {refusal}", refusal.number()),
            Undone::NoFormat => write!(f, "error: no format, choose ft12 or ft2"),
            Undone::NoMemory => write!(f, "error: no memory"),
        }
    }
}
