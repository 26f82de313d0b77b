// Bath results in marks: a quiet gap, and the frame behind it.
ghost use Rattle.std.specs.Prelude.{◌≡◌, ◌++◌, map, MatchResult, Some, [], codes};
ghost use Rattle.anyhow.specs.Error.{HasMessage};
ghost use Rattle.lines.specs.Records.{mark_octet};
ghost use Rattle.formats.specs.Marks.{ones};
ghost use Rattle.readings.specs.Octets.{octets_of};
ghost use Rattle.bath.specs.Texts.{Unsent};

use anyhow::{Error, anyhow};
use formats::format::WriteFormat;
use formats::refusal::WriteRefusal;
use readings::reading::Reading;
use readings::reading::octets::READING_KIND;
use std::alloc::{AllocError, Global};

// The most marks that a frame or a gap has here.
const MARKS: usize = 512;

// What went wrong, made only where it did: an error is large, and moved with every answer that could hold one.
fn no_memory(_: AllocError) -> Error
    ensures { HasMessage (Some (codes "no memory")) result }
{
    anyhow!("no memory")
}

fn refused(_: WriteRefusal) -> Error
    ensures { HasMessage (Some (codes "the frame is refused")) result }
{
    anyhow!("the frame is refused")
}

// Appends octets to the marks.
fn append(marks: &mut Vec<u8>, octets: &[u8]) -> anyhow::Result<()>
    ensures { MatchResult result (λ _. marks.new.items ≡ marks.old.items ++ octets.now) (λ e. HasMessage (Some (codes "no memory")) e) }
{
    marks.extend_from_slice(octets).map_err(no_memory)
}

// Gathers marks in a format; each gap and frame is written to the buffer first. Not shared with soak: the sizes differ,
// and no crate is there for programs alone.
#[derive(Drop)]
pub struct Sender<W> {
    format: W,
    buffer: [u8; MARKS],
    marks: Vec<u8>,
}

impl<W: WriteFormat> Sender<W> {
    pub fn new(heap: Global, format: W) -> Sender<W>
        ensures { (result.format ≡ format) × (result.marks.items ≡ []) }
    {
        Sender {
            format,
            buffer: [0; MARKS],
            marks: Vec::new(heap),
        }
    }

    // The marks so far.
    pub fn marks(&self) -> &[u8]
        ensures { result.now ≡ self.now.marks.items }
    {
        self.marks.as_slice()
    }

    // Puts the marks of a gap behind the marks so far.
    #[inline]
    pub fn put_gap(&mut self) -> anyhow::Result<()>
        ensures format { self.new.format ≡ self.old.format }
        ensures marks { MatchResult result (λ _. self.new.marks.items ≡ self.old.marks.items ++ map mark_octet (ones (W.ReadFormat.model self.old.format).gap)) Unsent }
    {
        let gap = self.format.write_gap(&mut self.buffer).map_err(refused)?;
        append(&mut self.marks, &self.buffer[..gap])
    }

    // Puts the marks of a reading's frame behind the marks so far.
    pub fn put_frame(&mut self, reading: Reading) -> anyhow::Result<()>
        ensures format { self.new.format ≡ self.old.format }
        ensures marks { MatchResult result (λ _. self.new.marks.items ≡ self.old.marks.items ++ map mark_octet ((W.ReadFormat.model self.old.format).frame 1 (octets_of reading.batch reading.temperature reading.viscosity))) Unsent }
    {
        let octets = <[u8; 7]>::from(reading);
        let count = self
            .format
            .write(READING_KIND, &octets, &mut self.buffer)
            .map_err(refused)?;
        append(&mut self.marks, &self.buffer[..count])
    }
}
