// The reading trait and the writing trait.
ghost use Rattle.std.specs.Prelude.{◌≡◌, List, []};
ghost use Rattle.formats.specs.Answers.{Added, GapWritten, Written};
ghost use Rattle.formats.specs.Laws.{Laws, Model};
ghost use Rattle.lines.specs.declared.mark.Mark.{Mark};

use crate::fault::Fault;
use crate::refusal::WriteRefusal;
use lines::mark::Mark;

// A list of marks that is no fault: open, open and telling the user octet that its last mark completes, or a frame.
#[derive(Clone, Copy, PartialEq, Eq, Debug)]
pub enum Progress {
    Open,
    Octet(u8),
    // by the number of its kind, the word that `write` takes
    Frame(u8),
}

// A format that reads. Its state stands for the list of marks so far, perhaps for several.
pub trait ReadFormat {
    // The distance: fewer altered marks than this are always noticed. Kept without a law that it is the meaning's, which
    // each supplier would have to show besides: `hamming_distance` says so.
    const DISTANCE: u8;

    type Fault: Fault;

    // what the format means at its settings
    ghost model: { Self → Model };

    // the lists for which a state stands
    ghost stands: { Self → List Mark → Type 0 };

    fn gap(&self) -> u16
        ensures { result ≡ (model self.now).gap };

    fn hamming_distance(&self) -> u8
        ensures { result ≡ (model self.now).distance };

    // Back to the empty list.
    fn restart(&mut self)
        ensures same { model self.new ≡ model self.old }
        ensures empty { stands self.new [] };

    // Judges the list with one mark more.
    fn add(&mut self, mark: Mark) -> Result<Progress, Self::Fault>
        ensures same { model self.new ≡ model self.old }
        ensures added { Added Self.Fault.Fault.cause (stands self.old) (stands self.new) (model self.old).verdict mark result };

    // what whoever supplies a format shows
    ghost lawful: { (s : Self) → Laws (model s) };
}

// A format that also writes.
pub trait WriteFormat: ReadFormat {
    // Puts a frame's marks into the mark buffer, one octet 00 or 01 a mark, and answers their count.
    // The kind is kept a number: a caller above any format may name one that the format lacks, and is refused then.
    fn write(&self, kind: u8, octets: &[u8], marks: &mut [u8]) -> Result<usize, WriteRefusal>
        ensures { Written (Self.ReadFormat.model self.now) kind octets.now marks.old result marks.new };

    // Puts the marks of a quiet gap there likewise.
    fn write_gap(&self, marks: &mut [u8]) -> Result<usize, WriteRefusal>
        ensures { GapWritten (Self.ReadFormat.model self.now) marks.old result marks.new }
    {
        let gap = usize::from(self.gap());
        if marks.len() < gap {
            return Err(WriteRefusal::ShortBuffer);
        }
        marks[..gap].fill(1);
        Ok(gap)
    }
}
