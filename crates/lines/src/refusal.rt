// Why a record is refused.
ghost use Rattle.std.specs.Prelude.{◌≡◌, Some};
ghost use Rattle.lines.specs.Refusals.{record_refusal_number};
ghost use Rattle.lines.specs.Texts.{record_refusal_text};

use std::error::Error;
use std::fmt;

// By the numbers by which callers know them.
#[derive(Clone, Copy, PartialEq, Eq, Debug)]
pub enum RecordRefusal {
    // a character record has two octets an entry
    OddOctetCount = 2,
}

impl RecordRefusal {
    // The number by which callers know the refusal.
    pub fn number(self) -> u8
        ensures { result ≡ record_refusal_number self }
    {
        self as u8
    }
}

impl fmt::Display for RecordRefusal {
    ghost output = { λ refusal. Some (record_refusal_text refusal) };

    fn fmt<W: fmt::Write>(&self, f: &mut fmt::Formatter<W>) -> fmt::Result {
        f.write_str(match self {
            RecordRefusal::OddOctetCount => "odd number of octets",
        })
    }
}

impl Error for RecordRefusal {}
