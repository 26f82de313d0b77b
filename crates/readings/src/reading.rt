// A reading of a viscometer.
ghost use Rattle.std.specs.Prelude.{◌≤◌};

pub mod octets;
pub mod parts;

// The batch, 1 to 65,535; the temperature in tenths of a degree Celsius, 0 to 2000; and the kinematic viscosity in
// hundredths of mm²/s, 1 to 9,999,999.
#[derive(Clone, Copy, PartialEq, Eq, Debug)]
pub struct Reading {
    batch: u16,
    temperature: u16,
    viscosity: u32,
    ghost limits: { (1 ≤ batch) × (temperature ≤ 2000) × (1 ≤ viscosity) × (viscosity ≤ 9999999) },
}
