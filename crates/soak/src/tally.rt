// What was heard so far.
use std::fmt;

#[derive(Clone, Copy)]
pub struct Tally {
    pub marks: u64,
    pub frames: u64,
    pub faults: u64,
    // frames behind a gap that were heard
    pub awaited: u64,
    digest: u64,
}

impl Tally {
    pub fn new() -> Tally {
        Tally {
            marks: 0,
            frames: 0,
            faults: 0,
            awaited: 0,
            digest: 0xCBF2_9CE4_8422_2325,
        }
    }

    // One number more in the digest of all that was heard.
    pub fn note(&mut self, number: u64) {
        self.digest = (self.digest ^ number).wrapping_mul(0x0100_0000_01B3);
    }
}

impl fmt::Display for Tally {
    fn fmt<W: fmt::Write>(&self, f: &mut fmt::Formatter<W>) -> fmt::Result {
        write!(
            f,
            "{} marks, {} frames, {} faults, {} frames behind a gap heard, digest {:016x}",
            self.marks, self.frames, self.faults, self.awaited, self.digest
        )
    }
}
