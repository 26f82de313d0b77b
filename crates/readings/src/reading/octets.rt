// A reading as seven user octets, numbers with the high octet first.
ghost use Rattle.std.specs.Prelude.{◌≡◌, MatchResult};
ghost use Rattle.readings.specs.Octets.{Misfits, Unfit, batch_in, octets_of, temperature_in, viscosity_in};

use crate::reading::Reading;
use crate::refusal::{NoReading, OutOfLimits, Part};

// The temperature of the lab's bath, 40.0 degrees.
pub const BATH_TEMPERATURE: u16 = 400;

// The kind of the frames that readings travel in.
pub const READING_KIND: u8 = 1;

impl Reading {
    // The first part that is outside its limits is named.
    pub fn new(batch: u16, temperature: u16, viscosity: u32) -> Result<Reading, OutOfLimits>
        ensures { MatchResult result (λ x. (x.batch ≡ batch) × (x.temperature ≡ temperature) × (x.viscosity ≡ viscosity)) (λ e. Unfit batch temperature viscosity e.0) }
    {
        if batch < 1 {
            return Err(OutOfLimits(Part::Batch));
        }
        if temperature > 2000 {
            return Err(OutOfLimits(Part::Temperature));
        }
        if !(1..=9_999_999).contains(&viscosity) {
            return Err(OutOfLimits(Part::Viscosity));
        }
        Ok(Reading {
            batch,
            temperature,
            viscosity,
        })
    }
}

// The reading that user octets are.
impl TryFrom<&[u8]> for Reading {
    type Error = NoReading;

    ghost try_from_gives = { λ octets r. MatchResult r (λ x. octets.now ≡ octets_of x.batch x.temperature x.viscosity) (λ e. Misfits octets.now e) };

    fn try_from(octets: &[u8]) -> Result<Reading, NoReading> {
        let [b1, b0, t1, t0, v2, v1, v0] = *octets else {
            return Err(NoReading::WrongCount);
        };
        let batch = u16::from_be_bytes([b1, b0]);
        let temperature = u16::from_be_bytes([t1, t0]);
        let viscosity = u32::from_be_bytes([0, v2, v1, v0]);
        Ok(Reading::new(batch, temperature, viscosity)?)
    }
}

// The user octets that are a reading.
impl From<Reading> for [u8; 7] {
    ghost from_gives = { λ x octets. (octets ≡ octets_of x.batch x.temperature x.viscosity) × (batch_in octets ≡ x.batch) × (temperature_in octets ≡ x.temperature) × (viscosity_in octets ≡ x.viscosity) };

    fn from(reading: Reading) -> [u8; 7] {
        let [b1, b0] = reading.batch.to_be_bytes();
        let [t1, t0] = reading.temperature.to_be_bytes();
        let [_, v2, v1, v0] = reading.viscosity.to_be_bytes();
        [b1, b0, t1, t0, v2, v1, v0]
    }
}
