// The calls to a receiver.
ghost use Rattle.std.specs.Prelude.{◌≡◌, ℕ, List, ◌++◌, Ok, Err, MatchResult};
ghost use Rattle.hearing.specs.Calls.{Begun, Listened, Looked, Released};
ghost use Rattle.hearing.specs.Rules.{run_after};
ghost use Rattle.receiver.specs.Places.{At, model_of, standing_of};
ghost use Rattle.receiver.specs.Steps.{Judges, Loud, Takes};

use super::{FRAME_OCTETS, Receiver};
use crate::octets::UserOctets;
use crate::stage::{OpenList, Stage};
use formats::format::{Progress, ReadFormat};
use hearing::answer::{Ending, Heard, Standing, State};
use hearing::fault::ReceiverFault;
use hearing::refusal::ReceiverRefusal;
use lines::line::Line;
use lines::mark::Mark;

// The run with one mark more.
fn run_after(gap: u16, run: u16, mark: Mark) -> u16
    ensures { result ≡ run_after gap run mark }
{
    match mark {
        Mark::One if run < gap => run + 1,
        Mark::One => gap,
        _ => 0,
    }
}

impl<F: ReadFormat> Receiver<F> {
    // A new receiver is waiting.
    pub fn new(mut format: F) -> Self
        ensures begun { Begun (At F.ReadFormat.model F.ReadFormat.stands) standing_of result }
        ensures same { model_of F.ReadFormat.model result ≡ F.ReadFormat.model format }
    {
        format.restart();
        Receiver {
            format,
            stage: Stage::Waiting,
            run: 0,
        }
    }

    // The state and the run.
    pub fn state(&self) -> Standing
        ensures { result ≡ standing_of self.now }
    {
        let state = match self.stage {
            Stage::Waiting => State::Waiting,
            Stage::Ready => State::Ready,
            Stage::Open(_) => State::Open,
            Stage::Holding { .. } => State::Holding,
        };
        Standing {
            state,
            run: self.run,
        }
    }

    // The user octets of the frame that is held.
    pub fn look<'a>(&self, buffer: &'a [u8]) -> Result<UserOctets<'a>, ReceiverRefusal>
        ensures { MatchResult result (λ u. Looked (At F.ReadFormat.model F.ReadFormat.stands) standing_of self.now buffer.now (Ok u.octets.now)) (λ e. Looked (At F.ReadFormat.model F.ReadFormat.stands) standing_of self.now buffer.now (Err e)) }
    {
        let frame = buffer
            .first_chunk::<FRAME_OCTETS>()
            .ok_or(ReceiverRefusal::ShortBuffer)?;
        let octets = self.stage.held().ok_or(ReceiverRefusal::NotHolding)?;
        Ok(UserOctets::first(frame, octets))
    }

    // Makes a receiver that holds a frame ready for the next.
    pub fn release(&mut self) -> Result<(), ReceiverRefusal>
        ensures { Released (At F.ReadFormat.model F.ReadFormat.stands) (model_of F.ReadFormat.model) standing_of self.old self.new result }
    {
        self.stage.held().ok_or(ReceiverRefusal::NotHolding)?;
        self.stage = Stage::Ready;
        Ok(())
    }

    // One mark more in the open list: what ends the listen, if the mark does.
    fn add(
        &mut self,
        mark: Mark,
        list: OpenList,
        frame: &mut [u8; FRAME_OCTETS],
    ) -> Option<Ending<ReceiverFault<F::Fault>>>
        ensures loud { Loud result }
        ensures judges { (rest : List ℕ) → Judges F.Fault.Fault.cause F.ReadFormat.model F.ReadFormat.stands mark list self.old self.new (frame.old ++ rest) (frame.new ++ rest) result }
    {
        let OpenList { marks, octets } = list;
        match self.format.add(mark) {
            Ok(Progress::Open) => {
                self.stage = Stage::Open(list.with_mark());
                None
            }
            Ok(Progress::Octet(octet)) => {
                self.stage = Stage::Open(list.with_mark().with_octet(octet, frame));
                None
            }
            Ok(Progress::Frame(kind)) => {
                self.stage = Stage::Holding { kind, octets };
                Some(Ending::Frame { kind, octets })
            }
            Err(fault) => {
                self.stage = Stage::resting(self.format.gap(), self.run);
                Some(Ending::Fault(ReceiverFault::from(fault).at(marks)))
            }
        }
    }

    // One mark taken: what ends the listen, if the mark does.
    fn hear(
        &mut self,
        mark: Mark,
        frame: &mut [u8; FRAME_OCTETS],
    ) -> Option<Ending<ReceiverFault<F::Fault>>>
        ensures loud { Loud result }
        ensures takes { (rest : List ℕ) → Takes F.Fault.Fault.cause F.ReadFormat.model F.ReadFormat.stands mark self.old self.new (frame.old ++ rest) (frame.new ++ rest) result }
    {
        let gap = self.format.gap();
        self.run = run_after(gap, self.run, mark);
        match self.stage {
            Stage::Waiting => {
                self.stage = Stage::resting(gap, self.run);
                None
            }
            Stage::Ready if mark != Mark::One => self.add(mark, OpenList::default(), frame),
            Stage::Open(list) => self.add(mark, list, frame),
            Stage::Ready | Stage::Holding { .. } => None,
        }
    }

    // Takes marks from the line until a frame, a fault, a spent budget or an empty line, tested in this order.
    pub fn listen<L: Line>(
        &mut self,
        line: &mut L,
        buffer: &mut [u8],
        budget: u16,
    ) -> Result<Heard<ReceiverFault<F::Fault>>, ReceiverRefusal>
        ensures { Listened F.Fault.Fault.cause (At F.ReadFormat.model F.ReadFormat.stands) (model_of F.ReadFormat.model) standing_of L.Line.pending budget self.old self.new line.old line.new buffer.old buffer.new result }
    {
        let frame = buffer
            .first_chunk_mut::<FRAME_OCTETS>()
            .ok_or(ReceiverRefusal::ShortBuffer)?;
        if self.stage.held().is_some() {
            return Err(ReceiverRefusal::Holding);
        }
        for taken in 0..budget {
            let Some(mark) = line.take() else {
                return Ok(Heard {
                    taken,
                    ending: Ending::Empty,
                });
            };
            if let Some(ending) = self.hear(mark, frame) {
                return Ok(Heard {
                    taken: taken + 1,
                    ending,
                });
            }
        }
        Ok(Heard {
            taken: budget,
            ending: Ending::Spent,
        })
    }

    // The format, with its settings.
    pub fn format(&self) -> &F
        ensures { result.now ≡ self.now.format }
    {
        &self.format
    }

    pub fn into_format(self) -> F
        ensures { result ≡ self.format }
    {
        let Receiver {
            format,
            stage: _,
            run: _,
        } = self;
        format
    }
}
