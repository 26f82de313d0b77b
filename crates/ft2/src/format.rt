// FT2 as a format that reads.
ghost use Rattle.std.specs.Prelude.{◌≡◌};
ghost use Rattle.ft2_laws.specs.Reading.{ft2_model};
ghost use Rattle.ft2_laws.specs.Worked.{Worked};
ghost use Rattle.ft2.specs.Making.{Made};
ghost use Rattle.ft2.specs.Standing.{Standing, closes};
ghost use Rattle.ft2_laws.proofs.Laws.{ft2_laws};

use crate::reader::Reader;
use formats::format::{Progress, ReadFormat};
use formats::refusal::SettingsRefusal;
use ft2_laws::fault::Ft2Fault;
use ft2_laws::settings::Settings;
use lines::mark::Mark;

// FT2 at its settings, and how far the list of marks has been read.
#[derive(Clone, Copy)]
pub struct Ft2 {
    pub(crate) settings: Settings,
    reader: Reader,
}

impl Ft2 {
    // With a fixed length of 1 to 30 and a header length of 1 to 15.
    pub fn new(fixed_length: u16, header_length: u16) -> Result<Ft2, SettingsRefusal>
        ensures made { Made fixed_length header_length result }
        ensures worked { Worked }
    {
        Ok(Ft2 {
            settings: Settings::new(fixed_length, header_length)?,
            reader: Reader::new(),
        })
    }
}

impl ReadFormat for Ft2 {
    const DISTANCE: u8 = 4;

    type Fault = Ft2Fault;

    ghost model = { λ s. ft2_model s.settings };

    ghost stands = { λ s. Standing s.settings s.reader };

    ghost lawful = { λ s. ft2_laws s.settings };

    // Eight marks for each octet of the longest frame.
    fn gap(&self) -> u16 {
        let fixed = u16::from(self.settings.fixed);
        let variable = u16::from(self.settings.header) + 15;
        8 * (fixed.max(variable) + 3)
    }

    fn hamming_distance(&self) -> u8 {
        Self::DISTANCE
    }

    fn restart(&mut self) {
        self.reader = Reader::new();
    }

    fn add(&mut self, mark: Mark) -> Result<Progress, Ft2Fault> {
        if self.reader.is_idle(mark) {
            return Ok(Progress::Open);
        }
        let taken = self.reader.take(self.settings, mark);
        if is_closed(&taken) {
            self.reader = Reader::new();
        }
        taken
    }
}

// Whether a list ends: it is a frame, or at fault.
fn is_closed(answer: &Result<Progress, Ft2Fault>) -> bool
    ensures { result ≡ closes answer.now }
{
    matches!(answer, Ok(Progress::Frame(_)) | Err(_))
}
