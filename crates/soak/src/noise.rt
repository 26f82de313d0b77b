// Noise from a seed: the same seed gives the same noise.
ghost use Rattle.std.specs.Prelude.{◌≡◌, ◌+◌, length, OnOk, bit_or};
ghost use Rattle.soak.specs.Noise.{mark_of, octet_of, shifted};

use lines::mark::Mark;
use std::alloc::AllocFailed;

#[derive(Clone, Copy)]
pub struct Noise {
    state: u32,
}

impl Noise {
    pub fn new(seed: u32) -> Noise
        ensures { result.state ≡ bit_or seed 1 }
    {
        Noise { state: seed | 1 }
    }

    // An octet of the next state, which comes by shifts and exclusive or.
    pub fn octet(&mut self) -> u8
        ensures state { self.new.state ≡ shifted self.old.state }
        ensures octet { result ≡ octet_of self.new.state }
    {
        let mut x = self.state;
        x ^= x << 13;
        x ^= x >> 17;
        x ^= x << 5;
        self.state = x;
        ((x >> 8) & 0xff) as u8
    }

    // A mark: 0 and bad as often as said, of 256, and else 1.
    pub fn mark(&mut self, zeros: u8, bad: u8) -> Mark
        ensures state { self.new.state ≡ shifted self.old.state }
        ensures mark { result ≡ mark_of zeros bad (octet_of self.new.state) }
    {
        let octet = self.octet();
        if octet < zeros {
            Mark::Zero
        } else if octet - zeros < bad {
            Mark::Bad
        } else {
            Mark::One
        }
    }

    // Appends marks of noise, of one of four kinds.
    pub fn fill(&mut self, marks: &mut Vec<u8>, count: u32) -> Result<(), AllocFailed<u8>>
        ensures { OnOk result (length marks.new.items ≡ length marks.old.items + count) }
    {
        let (zeros, bad) = match self.octet() % 4 {
            0 => (128, 0),
            1 => (32, 2),
            2 => (4, 1),
            _ => (100, 16),
        };
        for _i in 0..count {
            marks.push(self.mark(zeros, bad).into())?;
        }
        Ok(())
    }

    // Appends so many octets.
    pub fn octets(&mut self, octets: &mut Vec<u8>, count: u8) -> Result<(), AllocFailed<u8>>
        ensures { OnOk result (length octets.new.items ≡ length octets.old.items + count) }
    {
        for _i in 0..count {
            octets.push(self.octet())?;
        }
        Ok(())
    }
}
