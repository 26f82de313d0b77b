// FT1.2 behind the reading and the writing trait.
ghost use Rattle.std.specs.Prelude.{◌≡◌, ◌≤◌, [], Decides, MatchResult};
ghost use Rattle.lines.specs.declared.mark.Mark.TheVariants.{One};
ghost use Rattle.formats.specs.Answers.{Tells};
ghost use Rattle.formats.specs.Machine.{StandsFor};
ghost use Rattle.formats.specs.declared.refusal.SettingsRefusal.TheVariants.{OutOfLimits};
ghost use Rattle.ft12_laws.specs.Faults.{ft12_cause};
ghost use Rattle.ft12_laws.specs.Machine as machine;
ghost use Rattle.ft12_laws.specs.Reading as spec;
ghost use Rattle.ft12_laws.specs.declared.reading.Place.TheVariants.{First};
ghost use Rattle.ft12.specs.Steps.{left_after};
ghost use Rattle.std.proofs.Common.{arith};
ghost use Rattle.ft12_laws.proofs.Laws.{ft12_laws};

use crate::characters::{Step, take_mark};
use crate::frames::Frame;
use crate::places::{judge, next};
use crate::settings::Settings;
use formats::format::{Progress, ReadFormat, WriteFormat};
use formats::refusal::{SettingsRefusal, WriteRefusal};
use ft12_laws::fault::Ft12Fault;
use ft12_laws::kind::Kind;
use ft12_laws::reading::{Part, Place, Reading};
use lines::mark::Mark;
use std::mem;

// So many marks of 1 are a quiet gap.
const GAP: u16 = 33;

// Before the first mark of a frame.
const BEGINNING: Reading = Reading {
    place: Place::First,
    part: Part::Start,
};

// FT1.2 at its settings, and how far the list of marks has been read.
#[derive(Clone, Copy)]
pub struct Ft12 {
    settings: Settings,
    reading: Reading,
}

impl Ft12 {
    // Any fixed length but 1 to 255 is refused.
    pub fn new(fixed_length: u16) -> Result<Ft12, SettingsRefusal>
        ensures { MatchResult result (λ f. (1 ≤ fixed_length) × (fixed_length ≤ 255) × (f.settings.fixed_length ≡ fixed_length) × StandsFor (machine.ft12_machine f.settings.fixed_length) f.reading []) (λ e. (e ≡ OutOfLimits) × (1 ≤ fixed_length → fixed_length ≤ 255 → ⊥)) }
    {
        let settings = Settings::new(fixed_length)?;
        Ok(Ft12 {
            settings,
            reading: BEGINNING,
        })
    }

    // A whole character at its position; the list is empty after a frame or a fault.
    fn judge_character(&mut self, place: Place, octet: u8) -> Result<Progress, Ft12Fault>
        requires { self.old.reading ≡ machine.beginning First }
        ensures same { self.new.settings ≡ self.old.settings }
        ensures judged { Tells ft12_cause (spec.judge place octet) result }
        ensures left { self.new.reading ≡ left_after (spec.judge place octet) (machine.beginning (spec.next self.old.settings.fixed_length place octet)) }
    {
        let progress = judge(place, octet)?;
        if !matches!(progress, Progress::Frame(_)) {
            self.reading = Reading {
                place: next(self.settings.fixed_length(), place, octet),
                part: Part::Start,
            };
        }
        Ok(progress)
    }

    // A mark that is no 1 before a frame.
    fn judge_mark(&mut self, mark: Mark) -> Result<Progress, Ft12Fault>
        ensures same { self.new.settings ≡ self.old.settings }
        ensures judged { Tells ft12_cause (machine.says_at self.old.reading.place self.old.reading.part mark) result }
        ensures left { self.new.reading ≡ left_after (machine.says_at self.old.reading.place self.old.reading.part mark) (machine.after_at self.old.settings.fixed_length self.old.reading.place self.old.reading.part mark) }
    {
        let Reading { place, part } = mem::replace(&mut self.reading, BEGINNING);
        match take_mark(part, mark)? {
            Step::Within(part) => {
                self.reading = Reading { place, part };
                Ok(Progress::Open)
            }
            Step::Whole(octet) => self.judge_character(place, octet),
        }
    }
}

impl ReadFormat for Ft12 {
    const DISTANCE: u8 = 4;

    type Fault = Ft12Fault;

    ghost model = { λ s. spec.ft12_model s.settings.fixed_length };

    ghost stands = { λ s. StandsFor (machine.ft12_machine s.settings.fixed_length) s.reading };

    ghost lawful = { λ s. ft12_laws s.settings.fixed_length (omega (arith, s.settings.limits)) };

    fn gap(&self) -> u16 {
        GAP
    }

    fn hamming_distance(&self) -> u8 {
        Self::DISTANCE
    }

    fn restart(&mut self) {
        self.reading = BEGINNING;
    }

    fn add(&mut self, mark: Mark) -> Result<Progress, Ft12Fault> {
        if mark == Mark::One && self.reading == BEGINNING {
            return Ok(Progress::Open);
        }
        self.judge_mark(mark)
    }
}

impl WriteFormat for Ft12 {
    fn write(&self, kind: u8, octets: &[u8], marks: &mut [u8]) -> Result<usize, WriteRefusal> {
        let frame = Frame::new(self.settings.fixed_length(), Kind::try_from(kind)?, octets)?;
        frame.put(marks)
    }
}
