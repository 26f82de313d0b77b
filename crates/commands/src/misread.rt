// Why a line of text is not understood.
ghost use Rattle.std.specs.Prelude.{◌≡◌, Some};
ghost use Rattle.commands.specs.Messages.{misread_text, number_fault_text};
ghost use Rattle.commands.specs.declared.misread.Misread.TheVariants.{BadNumber, NoMemory};

use std::alloc::{AllocError, AllocFailed};
use std::fmt;

#[derive(Clone, Copy)]
pub enum Misread<'a> {
    UnknownCommand(&'a str),
    BadOctet(&'a str),
    BadNumber(NumberFault<'a>),
    ExtraWord(&'a str),
    NoMemory,
}

impl fmt::Display for Misread<'_> {
    ghost output = { λ misread. Some (misread_text misread) };

    fn fmt<W: fmt::Write>(&self, f: &mut fmt::Formatter<W>) -> fmt::Result {
        match self {
            Misread::UnknownCommand(word) => write!(f, "error: unknown command {word}, see help"),
            Misread::BadOctet(word) => {
                write!(f, "error: bad octet {word}, an octet is two hex digits")
            }
            Misread::BadNumber(fault) => write!(f, "error: {fault}, 0 to 65535"),
            Misread::ExtraWord(word) => write!(f, "error: extra word {word}"),
            Misread::NoMemory => write!(f, "error: no memory"),
        }
    }
}

// What is wrong with a number.
#[derive(Clone, Copy)]
pub enum NumberFault<'a> {
    Missing,
    NotDecimal(&'a str),
    TooLarge(&'a str),
}

impl fmt::Display for NumberFault<'_> {
    ghost output = { λ fault. Some (number_fault_text fault) };

    fn fmt<W: fmt::Write>(&self, f: &mut fmt::Formatter<W>) -> fmt::Result {
        match self {
            NumberFault::Missing => write!(f, "missing number"),
            NumberFault::NotDecimal(word) => write!(f, "bad number {word}"),
            NumberFault::TooLarge(word) => write!(f, "number {word} out of range"),
        }
    }
}

impl<'a> From<NumberFault<'a>> for Misread<'a> {
    ghost from_gives = { λ fault r. r ≡ BadNumber fault };

    fn from(fault: NumberFault<'a>) -> Misread<'a> {
        Misread::BadNumber(fault)
    }
}

impl From<AllocError> for Misread<'_> {
    ghost from_gives = { λ _ r. r ≡ NoMemory };

    fn from(_e: AllocError) -> Self {
        Misread::NoMemory
    }
}

impl<T: Drop> From<AllocFailed<T>> for Misread<'_> {
    ghost from_gives = { λ _ r. r ≡ NoMemory };

    fn from(_e: AllocFailed<T>) -> Self {
        Misread::NoMemory
    }
}
