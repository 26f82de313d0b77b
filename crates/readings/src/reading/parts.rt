// The parts of a reading.
ghost use Rattle.std.specs.Prelude.{◌≡◌};

use crate::reading::Reading;

impl Reading {
    pub fn batch(&self) -> u16
        ensures { result ≡ self.now.batch }
    {
        self.batch
    }

    pub fn temperature(&self) -> u16
        ensures { result ≡ self.now.temperature }
    {
        self.temperature
    }

    pub fn viscosity(&self) -> u32
        ensures { result ≡ self.now.viscosity }
    {
        self.viscosity
    }
}
