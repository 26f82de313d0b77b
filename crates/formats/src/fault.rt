// Why a list of marks is no frame.
ghost use Rattle.std.specs.Prelude.{◌≡◌, Some, MatchResult};
ghost use Rattle.lines.specs.Characters.{mark_if};
ghost use Rattle.lines.specs.declared.mark.Mark.TheVariants.{Bad};
ghost use Rattle.formats.specs.Numbers.{line_cause};
ghost use Rattle.formats.specs.Texts.{layer_text};
ghost use Rattle.formats.specs.Verdicts.{Cause};
ghost use Rattle.formats.specs.declared.fault.LineFault.TheVariants.{BadMark};

use lines::mark::Mark;
use std::fmt;

// The layer at which a fault is found.
#[derive(Clone, Copy, PartialEq, Eq, Debug)]
pub enum Layer {
    Line,
    Character,
    Frame,
}

impl fmt::Display for Layer {
    ghost output = { λ layer. Some (layer_text layer) };

    fn fmt<W: fmt::Write>(&self, f: &mut fmt::Formatter<W>) -> fmt::Result {
        f.write_str(match self {
            Self::Line => "line",
            Self::Character => "character",
            Self::Frame => "frame",
        })
    }
}

// A fault keeps its number and its layer.
pub trait Fault {
    ghost cause: { Self → Cause };

    fn number(&self) -> u8
        ensures { result ≡ (cause self.now).number };

    fn layer(&self) -> Layer
        ensures { result ≡ (cause self.now).layer };
}

// What can be wrong with a mark by itself, by the numbers by which callers know it.
#[derive(Clone, Copy, PartialEq, Eq, Debug)]
pub enum LineFault {
    BadMark = 21,
}

impl Fault for LineFault {
    ghost cause = { line_cause };

    fn number(&self) -> u8 {
        *self as u8
    }

    fn layer(&self) -> Layer {
        Layer::Line
    }
}

// Whether a good mark is 1. A bad one is a fault.
pub fn good_mark(mark: Mark) -> Result<bool, LineFault>
    ensures { MatchResult result (λ one. mark ≡ mark_if one) (λ e. (mark ≡ Bad) × (e ≡ BadMark)) }
{
    match mark {
        Mark::Zero => Ok(false),
        Mark::One => Ok(true),
        Mark::Bad => Err(LineFault::BadMark),
    }
}
