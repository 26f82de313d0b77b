// What a receiver answers.
ghost use Rattle.std.specs.Prelude.{◌≡◌, Some};
ghost use Rattle.hearing.specs.Texts.{standing_text, state_text};
ghost use Rattle.hearing.specs.Told.{told};

use crate::fault::{ReceiverFault, ToldFault};
use formats::fault::Fault;
use std::fmt;

#[derive(Clone, Copy, PartialEq, Eq, Debug)]
pub enum State {
    Waiting,
    Ready,
    Open,
    Holding,
}

impl fmt::Display for State {
    ghost output = { λ state. Some (state_text state) };

    fn fmt<W: fmt::Write>(&self, f: &mut fmt::Formatter<W>) -> fmt::Result {
        f.write_str(match self {
            State::Waiting => "waiting",
            State::Ready => "ready",
            State::Open => "open",
            State::Holding => "holding",
        })
    }
}

// The state, and the run: how many marks of 1 came last, counted up to the gap.
#[derive(Clone, Copy, PartialEq, Eq, Debug)]
pub struct Standing {
    pub state: State,
    pub run: u16,
}

impl fmt::Display for Standing {
    ghost output = { λ standing. Some (standing_text standing) };

    fn fmt<W: fmt::Write>(&self, f: &mut fmt::Formatter<W>) -> fmt::Result {
        write!(f, "{}, run {}", self.state, self.run)
    }
}

// What ended a listen, with a fault of any type.
#[derive(Clone, Copy, PartialEq, Eq, Debug)]
pub enum Ending<F> {
    // a frame, by the number of its kind as writers take it, with its count of user octets
    Frame { kind: u8, octets: u8 },
    // a list of marks that is no frame
    Fault(F),
    // the budget is used up
    Spent,
    // no mark is to come
    Empty,
}

impl<E: Fault + Drop> Ending<ReceiverFault<E>> {
    // The same ending, its fault as it is told to callers.
    pub fn told(self) -> Ending<ToldFault>
        ensures { result ≡ told E.Fault.cause self }
    {
        match self {
            Ending::Frame { kind, octets } => Ending::Frame { kind, octets },
            Ending::Fault(fault) => Ending::Fault(fault.into()),
            Ending::Spent => Ending::Spent,
            Ending::Empty => Ending::Empty,
        }
    }
}

// How many marks a listen took, and what ended it.
#[derive(Clone, Copy, PartialEq, Eq, Debug)]
pub struct Heard<F> {
    pub taken: u16,
    pub ending: Ending<F>,
}
