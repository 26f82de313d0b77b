// What a line agrees on beforehand.
ghost use Rattle.std.specs.Prelude.{◌≡◌, ◌≤◌, MatchResult};
ghost use Rattle.formats.specs.declared.refusal.SettingsRefusal.TheVariants.{OutOfLimits};

use formats::refusal::SettingsRefusal;

// The number of user octets in a frame of fixed length, from 1 to 255.
// no NonZeroU8: a law takes an octet as any number, so the upper limit is stated too
#[derive(Clone, Copy)]
pub struct Settings {
    fixed_length: u8,
    ghost limits: { (1 ≤ fixed_length) × (fixed_length ≤ 255) },
}

impl Settings {
    // Any other number is refused.
    pub fn new(fixed_length: u16) -> Result<Settings, SettingsRefusal>
        ensures { MatchResult result (λ s. s.fixed_length ≡ fixed_length) (λ e. (e ≡ OutOfLimits) × (1 ≤ fixed_length → fixed_length ≤ 255 → ⊥)) }
    {
        if !(1..=255).contains(&fixed_length) {
            return Err(SettingsRefusal::OutOfLimits);
        }
        Ok(Settings {
            fixed_length: fixed_length as u8,
        })
    }

    pub fn fixed_length(&self) -> u8
        ensures { result ≡ self.now.fixed_length }
    {
        self.fixed_length
    }
}
