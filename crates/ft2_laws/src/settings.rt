// The settings of FT2.
ghost use Rattle.std.specs.Prelude.{◌≡◌, MatchResult};
ghost use Rattle.formats.specs.declared.refusal.SettingsRefusal.TheVariants.{OutOfLimits};
ghost use Rattle.ft2_laws.specs.Limits.{Within};

use formats::refusal::SettingsRefusal;

// The greatest fixed length.
const FIXED_MOST: u16 = 30;

// The greatest header length.
const HEADER_MOST: u16 = 15;

// The fixed length and the header length, each within its limits.
#[derive(Clone, Copy)]
pub struct Settings {
    pub fixed: u8,
    pub header: u8,
    ghost limits: { Within fixed header },
}

impl Settings {
    // With a fixed length of 1 to 30 and a header length of 1 to 15; any other number is refused.
    pub fn new(fixed_length: u16, header_length: u16) -> Result<Settings, SettingsRefusal>
        ensures { MatchResult result (λ s. (s.fixed ≡ fixed_length) × (s.header ≡ header_length)) (λ e. (e ≡ OutOfLimits) × (Within fixed_length header_length → ⊥)) }
    {
        if !(1..=FIXED_MOST).contains(&fixed_length)
            || !(1..=HEADER_MOST).contains(&header_length)
        {
            return Err(SettingsRefusal::OutOfLimits);
        }
        Ok(Settings {
            fixed: fixed_length as u8,
            header: header_length as u8,
        })
    }
}
