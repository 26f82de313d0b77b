// A bath result as it is keyed at the lab terminal: batch, temperature and viscosity, as `1207 40.0 95.31`.
ghost use Rattle.std.specs.Prelude.{◌≡◌, MatchResult};
ghost use Rattle.readings.specs.Keyed.{Refused, Three, Words, Writes, Wrong};

use crate::numbers::{decimal, digits};
use crate::reading::Reading;
use crate::reading::octets::BATH_TEMPERATURE;
use crate::refusal::{Miskeyed, Part};

// The reading that three words write.
fn of_words(batch: &str, temperature: &str, viscosity: &str) -> Result<Reading, Miskeyed>
    ensures { let words : Words = record { batch = batch.now; temperature = temperature.now; viscosity = viscosity.now } in MatchResult result (λ x. Writes words x) (λ e. Wrong words e) }
{
    let batch = digits(0, batch.as_bytes()).ok_or(Miskeyed::NoNumber(Part::Batch))?;
    let temperature = decimal(temperature.as_bytes(), 1).ok_or(Miskeyed::NoNumber(
        Part::Temperature,
    ))?;
    let viscosity = decimal(viscosity.as_bytes(), 2).ok_or(Miskeyed::NoNumber(Part::Viscosity))?;
    if !(1..=65_535).contains(&batch) {
        return Err(Miskeyed::OutOfLimits(Part::Batch));
    }
    if temperature != u32::from(BATH_TEMPERATURE) {
        return Err(Miskeyed::OutOfLimits(Part::Temperature));
    }
    Ok(Reading::new(batch as u16, BATH_TEMPERATURE, viscosity)?)
}

// The reading that a line of text writes. No `FromStr`: a reading in general is no bath result.
pub fn keyed(text: &str) -> Result<Reading, Miskeyed>
    ensures { MatchResult result (λ x. (words : Words) × Three text.now words × Writes words x) (λ e. Refused text.now e) }
{
    // Fused, so that white space behind a short line is read once.
    let mut words = text.split_whitespace().fuse();
    match (words.next(), words.next(), words.next(), words.next()) {
        (Some(batch), Some(temperature), Some(viscosity), None) => {
            of_words(batch, temperature, viscosity)
        }
        _ => Err(Miskeyed::WrongCount),
    }
}
