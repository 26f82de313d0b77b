// A mark as it came from the line, and as an octet of a mark record.
ghost use Rattle.std.specs.Prelude.{◌≡◌, Some};
ghost use Rattle.lines.specs.Records.{mark_of, mark_octet};
ghost use Rattle.lines.specs.Texts.{mark_text};

use std::fmt;

// `Bad` is a bit that was received with insufficient signal quality.
#[derive(Clone, Copy, PartialEq, Eq, Debug)]
pub enum Mark {
    Zero = 0,
    One = 1,
    Bad = 2,
}

// An octet of a mark record: 00 is mark 0, 01 is mark 1, any other octet is bad.
impl From<u8> for Mark {
    ghost from_gives = { λ octet r. r ≡ mark_of octet };

    fn from(octet: u8) -> Mark {
        match octet {
            0 => Mark::Zero,
            1 => Mark::One,
            _ => Mark::Bad,
        }
    }
}

// The octet that is written for a mark.
impl From<Mark> for u8 {
    ghost from_gives = { λ mark r. r ≡ mark_octet mark };

    fn from(mark: Mark) -> u8 {
        mark as u8
    }
}

// A mark as one symbol.
impl fmt::Display for Mark {
    ghost output = { λ mark. Some (mark_text mark) };

    fn fmt<W: fmt::Write>(&self, f: &mut fmt::Formatter<W>) -> fmt::Result {
        f.write_str(match self {
            Mark::Zero => "0",
            Mark::One => "1",
            Mark::Bad => "x",
        })
    }
}
