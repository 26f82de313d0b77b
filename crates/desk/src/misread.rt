// Why an order is not understood.
ghost use Rattle.std.specs.Prelude.{◌≡◌, Some};
ghost use Rattle.desk.specs.Messages.{desk_misread_text};
ghost use Rattle.desk.specs.declared.misread.DeskMisread.TheVariants.{Words};

use commands::misread::{Misread, NumberFault};
use std::fmt;

#[derive(Clone, Copy)]
pub enum DeskMisread<'a> {
    // as any command is not understood
    Words(Misread<'a>),
    // the kind of a frame is no number from 0 to 255
    BadKind(NumberFault<'a>),
}

impl<'a> From<Misread<'a>> for DeskMisread<'a> {
    ghost from_gives = { λ misread r. r ≡ Words misread };

    fn from(misread: Misread<'a>) -> DeskMisread<'a> {
        DeskMisread::Words(misread)
    }
}

impl fmt::Display for DeskMisread<'_> {
    ghost output = { λ misread. Some (desk_misread_text misread) };

    fn fmt<W: fmt::Write>(&self, f: &mut fmt::Formatter<W>) -> fmt::Result {
        match self {
            DeskMisread::Words(misread) => write!(f, "{misread}"),
            DeskMisread::BadKind(fault) => write!(f, "error: {fault}, 0 to 255"),
        }
    }
}
