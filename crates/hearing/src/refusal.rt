// Why a call to a receiver is refused.
ghost use Rattle.std.specs.Prelude.{◌≡◌, Some};
ghost use Rattle.hearing.specs.Texts.{receiver_refusal_text};
ghost use Rattle.hearing.specs.Numbers.{receiver_refusal_number};

use std::error::Error;
use std::fmt;

// In the order in which the calls test them, each with the number by which callers know it.
#[derive(Clone, Copy, PartialEq, Eq, Debug)]
pub enum ReceiverRefusal {
    // the frame buffer has fewer than 255 octets
    ShortBuffer = 3,
    // the receiver is holding a frame
    Holding = 4,
    // the receiver is holding no frame
    NotHolding = 5,
}

impl ReceiverRefusal {
    // The number by which callers know the refusal.
    pub fn number(self) -> u8
        ensures { result ≡ receiver_refusal_number self }
    {
        self as u8
    }
}

impl fmt::Display for ReceiverRefusal {
    ghost output = { λ refusal. Some (receiver_refusal_text refusal) };

    fn fmt<W: fmt::Write>(&self, f: &mut fmt::Formatter<W>) -> fmt::Result {
        f.write_str(match self {
            ReceiverRefusal::ShortBuffer => "frame buffer has fewer than 255 octets",
            ReceiverRefusal::Holding => "a frame is held",
            ReceiverRefusal::NotHolding => "no frame is held",
        })
    }
}

impl Error for ReceiverRefusal {}
