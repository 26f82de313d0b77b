// What was heard of each frame.
ghost use Rattle.std.specs.Prelude.{◌≡◌};
ghost use Rattle.day.specs.declared.entry.Lost.TheVariants.{Octets};

use hearing::fault::ToldFault;
use readings::reading::Reading;
use readings::refusal::NoReading;

// Where a capture was taken: at the viscometer in the pipe, or at the lab's bath.
#[derive(Clone, Copy, PartialEq, Eq, Debug)]
pub enum Site {
    Line,
    Lab,
}

// Why a frame shows no reading.
#[derive(Clone, Copy)]
pub enum Lost {
    // readings travel in frames of kind 1
    Kind(u8),
    Octets(NoReading),
    // the bath is at 40.0 degrees
    NotBath,
    // the frame was damaged: its fault, and the number of the mark at which that showed
    Damaged(ToldFault),
}

// The reading of a frame, or why it shows none.
pub type Entry = Result<Reading, Lost>;

impl From<NoReading> for Lost {
    ghost from_gives = { λ why lost. lost ≡ Octets why };

    fn from(why: NoReading) -> Lost {
        Lost::Octets(why)
    }
}
