// Why octets, or what was keyed, is no reading.
ghost use Rattle.std.specs.Prelude.{◌≡◌};
ghost use Rattle.readings.specs.declared.refusal.Miskeyed.TheVariants as keyed;
ghost use Rattle.readings.specs.declared.refusal.NoReading.TheVariants as octets;

use std::error::Error;

// The parts of a reading.
#[derive(Clone, Copy, PartialEq, Eq, Debug)]
pub enum Part {
    Batch,
    Temperature,
    Viscosity,
}

// The part that is outside its limits.
#[derive(Clone, Copy, PartialEq, Eq, Debug)]
pub struct OutOfLimits(pub Part);

// Why user octets are no reading.
#[derive(Clone, Copy, PartialEq, Eq, Debug)]
pub enum NoReading {
    // a reading has seven octets
    WrongCount,
    // a part is outside its limits
    OutOfLimits(Part),
}

// Why a keyed line is no bath result.
#[derive(Clone, Copy, PartialEq, Eq, Debug)]
pub enum Miskeyed {
    // a result has three words
    WrongCount,
    // a word is no number with the decimals of its part
    NoNumber(Part),
    // a part is outside its limits
    OutOfLimits(Part),
}

impl Error for OutOfLimits {}

impl Error for NoReading {}

impl Error for Miskeyed {}

impl From<OutOfLimits> for NoReading {
    ghost from_gives = { λ fault why. why ≡ octets.OutOfLimits fault.0 };

    fn from(fault: OutOfLimits) -> NoReading {
        NoReading::OutOfLimits(fault.0)
    }
}

// What is wrong with a reading, as it is told at the terminal.
impl From<OutOfLimits> for Miskeyed {
    ghost from_gives = { λ fault miskeyed. miskeyed ≡ keyed.OutOfLimits fault.0 };

    fn from(fault: OutOfLimits) -> Miskeyed {
        Miskeyed::OutOfLimits(fault.0)
    }
}
