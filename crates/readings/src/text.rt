// Readings and refusals in text.
ghost use Rattle.std.specs.Prelude.{Some};
ghost use Rattle.readings.specs.Texts.{hundredths_text, miskeyed_text, no_reading_text, out_of_limits_text, part_name, reading_text, tenths_text};

use crate::reading::Reading;
use crate::refusal::{Miskeyed, NoReading, OutOfLimits, Part};
use std::fmt;

// A viscosity in hundredths of mm²/s.
#[derive(Clone, Copy)]
pub struct Hundredths(pub u32);

// A temperature in tenths of a degree Celsius.
#[derive(Clone, Copy)]
pub struct Tenths(pub u16);

impl fmt::Display for Hundredths {
    ghost output = { λ x. Some (hundredths_text x.0) };

    fn fmt<W: fmt::Write>(&self, f: &mut fmt::Formatter<W>) -> fmt::Result {
        write!(f, "{}.{:02}", self.0 / 100, self.0 % 100)
    }
}

impl fmt::Display for Tenths {
    ghost output = { λ x. Some (tenths_text x.0) };

    fn fmt<W: fmt::Write>(&self, f: &mut fmt::Formatter<W>) -> fmt::Result {
        write!(f, "{}.{}", self.0 / 10, self.0 % 10)
    }
}

impl fmt::Display for Reading {
    ghost output = { λ x. Some (reading_text x) };

    fn fmt<W: fmt::Write>(&self, f: &mut fmt::Formatter<W>) -> fmt::Result {
        let viscosity = Hundredths(self.viscosity());
        let temperature = Tenths(self.temperature());
        write!(f, "{viscosity} mm²/s at {temperature} °C")
    }
}

impl fmt::Display for Part {
    ghost output = { λ part. Some (part_name part) };

    fn fmt<W: fmt::Write>(&self, f: &mut fmt::Formatter<W>) -> fmt::Result {
        f.write_str(match self {
            Part::Batch => "batch",
            Part::Temperature => "temperature",
            Part::Viscosity => "viscosity",
        })
    }
}

impl fmt::Display for OutOfLimits {
    ghost output = { λ fault. Some (out_of_limits_text fault.0) };

    fn fmt<W: fmt::Write>(&self, f: &mut fmt::Formatter<W>) -> fmt::Result {
        write!(f, "{} out of limits", self.0)
    }
}

impl fmt::Display for NoReading {
    ghost output = { λ why. Some (no_reading_text why) };

    fn fmt<W: fmt::Write>(&self, f: &mut fmt::Formatter<W>) -> fmt::Result {
        match *self {
            NoReading::WrongCount => f.write_str("a reading has seven octets"),
            NoReading::OutOfLimits(part) => write!(f, "{}", OutOfLimits(part)),
        }
    }
}

impl fmt::Display for Miskeyed {
    ghost output = { λ why. Some (miskeyed_text why) };

    fn fmt<W: fmt::Write>(&self, f: &mut fmt::Formatter<W>) -> fmt::Result {
        match *self {
            Miskeyed::WrongCount => {
                f.write_str("key batch, temperature and viscosity, as 1207 40.0 95.31")
            }
            Miskeyed::NoNumber(part) => {
                let form = match part {
                    Part::Batch => "a whole number",
                    Part::Temperature => "a number with one decimal",
                    Part::Viscosity => "a number with two decimals",
                };
                write!(f, "the {part} is {form}")
            }
            Miskeyed::OutOfLimits(part) => f.write_str(match part {
                Part::Batch => "a batch is 1 to 65535",
                Part::Temperature => "the bath is at 40.0",
                Part::Viscosity => "a viscosity is 0.01 to 99999.99",
            }),
        }
    }
}
