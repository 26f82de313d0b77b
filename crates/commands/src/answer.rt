// What the orders answer, and why one is not carried out.
ghost use Rattle.std.specs.Prelude.{◌≡◌, Some, flat_map};
ghost use Rattle.lines.specs.Texts.{mark_text};
ghost use Rattle.commands.specs.Orders.{Describes};
ghost use Rattle.commands.specs.Answers.{answer_text, setup_text, took_text, undone_text};
ghost use Rattle.commands.specs.declared.answer.Undone.TheVariants.{NoMemory};

use lines::line::Line;
use lines::mark::Mark;
use lines::refusal::RecordRefusal;
use lines::sampling::Kept;
use stacks::layer::Layers;
use stacks::record::RecordKind;
use stacks::stack::Stack;
use std::alloc::AllocError;
use std::fmt;

// A line described: its layers and the kind of its record.
#[derive(Clone, Copy, PartialEq, Eq, Debug)]
pub struct Setup {
    pub layers: Layers,
    pub kind: RecordKind,
}

impl Setup {
    // The description of a line over a record of the kind.
    pub fn of<L: Line>(line: &Stack<L>, kind: RecordKind) -> Self
        ensures { Describes kind line.now result }
    {
        Setup {
            layers: line.layers(),
            kind,
        }
    }
}

// The layers, uppermost first, and the record.
impl fmt::Display for Setup {
    ghost output = { λ setup. Some (setup_text setup) };

    fn fmt<W: fmt::Write>(&self, f: &mut fmt::Formatter<W>) -> fmt::Result {
        let kind = self.kind;
        match self.layers {
            Layers::Bare => write!(f, "{kind}"),
            Layers::Single(layer) => write!(f, "{layer} over {kind}"),
            Layers::Double(upper, lower) => write!(f, "{upper} over {lower} over {kind}"),
        }
    }
}

#[derive(Drop)]
pub enum Answer {
    Nothing,
    // a record was chosen: its kind and how many octets it has
    Chosen(RecordKind, usize),
    Refused(RecordRefusal),
    Line(Setup),
    // the line without its uppermost layer, and what that kept
    Uncovered(Setup, Kept),
    // as many marks as were asked for
    Took(Vec<Mark>),
    // fewer, and none is left
    TookAll(Vec<Mark>),
    Help,
}

impl fmt::Display for Answer {
    ghost output = { λ answer. Some (answer_text answer) };

    fn fmt<W: fmt::Write>(&self, f: &mut fmt::Formatter<W>) -> fmt::Result {
        match self {
            Answer::Nothing => Ok(()),
            Answer::Chosen(kind, count) => write!(f, "ok {kind}, {count} octets"),
            Answer::Refused(refusal) => write!(f, "refused {}: {refusal}", refusal.number()),
            Answer::Line(setup) => write!(f, "ok {setup}"),
            Answer::Uncovered(setup, Kept::Nothing) => write!(f, "ok {setup}"),
            Answer::Uncovered(setup, Kept::Single(first)) => {
                write!(f, "ok {setup}, kept {first} given up")
            }
            Answer::Uncovered(setup, Kept::Couple(first, second)) => {
                write!(f, "ok {setup}, kept {first}{second} given up")
            }
            Answer::Took(marks) => write!(f, "{}", Taken(marks.as_slice())),
            Answer::TookAll(marks) => write!(f, "{}, none left", Taken(marks.as_slice())),
            Answer::Help => write!(
                f,
                "commands: marks HH.., characters HH.., reversal, sampling, bare, take N, line, ft12 F, ft2 F H, receiver, markbuffer N, framebuffer N, write K HH.., gap, showmarks, showframe, listen B, look, release, state, help"
            ),
        }
    }
}

// Marks as they are shown, one symbol each.
#[derive(Clone, Copy)]
struct Symbols<'a>(&'a [Mark]);

impl fmt::Display for Symbols<'_> {
    ghost output = { λ symbols. Some (flat_map mark_text symbols.0.now) };

    fn fmt<W: fmt::Write>(&self, f: &mut fmt::Formatter<W>) -> fmt::Result {
        for mark in self.0 {
            write!(f, "{mark}")?;
        }
        Ok(())
    }
}

// Marks that were taken: how many there are, and the marks.
#[derive(Clone, Copy)]
struct Taken<'a>(&'a [Mark]);

impl fmt::Display for Taken<'_> {
    ghost output = { λ taken. Some (took_text taken.0.now) };

    fn fmt<W: fmt::Write>(&self, f: &mut fmt::Formatter<W>) -> fmt::Result {
        match self.0 {
            [] => write!(f, "took 0"),
            marks => write!(f, "took {}: {}", marks.len(), Symbols(marks)),
        }
    }
}

// Why an order is not carried out at a line, which is then as it was.
#[derive(Clone, Copy, PartialEq, Eq, Debug)]
pub enum Undone {
    // no third layer
    TwoLayers(Setup),
    // no layer to take off
    NoLayer(Setup),
    NoMemory,
}

impl From<AllocError> for Undone {
    ghost from_gives = { λ _ r. r ≡ NoMemory };

    fn from(_e: AllocError) -> Undone {
        Undone::NoMemory
    }
}

impl fmt::Display for Undone {
    ghost output = { λ undone. Some (undone_text undone) };

    fn fmt<W: fmt::Write>(&self, f: &mut fmt::Formatter<W>) -> fmt::Result {
        match self {
            Undone::TwoLayers(setup) => {
                write!(f, "error: two layers at most, the line is {setup}")
            }
            Undone::NoLayer(setup) => {
                write!(f, "error: no layer to take off, the line is {setup}")
            }
            Undone::NoMemory => write!(f, "error: no memory"),
        }
    }
}
