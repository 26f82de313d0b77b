// Why settings or a written frame are refused, by the numbers by which callers know it.
ghost use Rattle.std.specs.Prelude.{◌≡◌, Some};
ghost use Rattle.formats.specs.Numbers.{settings_refusal_number, write_refusal_number};
ghost use Rattle.formats.specs.Texts.{settings_refusal_text, write_refusal_text};

use std::error::Error;
use std::fmt;

#[derive(Clone, Copy, PartialEq, Eq, Debug)]
pub enum SettingsRefusal {
    // a number is outside its limits
    OutOfLimits = 1,
}

impl SettingsRefusal {
    // The number by which callers know the refusal.
    pub fn number(self) -> u8
        ensures { result ≡ settings_refusal_number self }
    {
        self as u8
    }
}

impl fmt::Display for SettingsRefusal {
    ghost output = { λ refusal. Some (settings_refusal_text refusal) };

    fn fmt<W: fmt::Write>(&self, f: &mut fmt::Formatter<W>) -> fmt::Result {
        f.write_str(match self {
            SettingsRefusal::OutOfLimits => "a setting is outside its limits",
        })
    }
}

impl Error for SettingsRefusal {}

// In the order in which a writer tests them.
#[derive(Clone, Copy, PartialEq, Eq, Debug)]
pub enum WriteRefusal {
    // the format has no such kind
    NoSuchKind = 6,
    // the octet count does not suit the kind
    WrongCount = 7,
    // the first octet does not suit the octet count
    WrongFirst = 8,
    // the mark buffer has fewer octets than there are marks to write
    ShortBuffer = 9,
}

impl WriteRefusal {
    // The number by which callers know the refusal.
    pub fn number(self) -> u8
        ensures { result ≡ write_refusal_number self }
    {
        self as u8
    }
}

impl fmt::Display for WriteRefusal {
    ghost output = { λ refusal. Some (write_refusal_text refusal) };

    fn fmt<W: fmt::Write>(&self, f: &mut fmt::Formatter<W>) -> fmt::Result {
        f.write_str(match self {
            WriteRefusal::NoSuchKind => "no such kind",
            WriteRefusal::WrongCount => "octet count does not suit the kind",
            WriteRefusal::WrongFirst => "first octet does not suit the octet count",
            WriteRefusal::ShortBuffer => "mark buffer too short",
        })
    }
}

impl Error for WriteRefusal {}
