// Sampling: a line that is read three times a mark.
ghost use Rattle.std.specs.Prelude.{◌≡◌, ◌∷◌, ◌++◌};
ghost use Rattle.lines.specs.Layers.{Coupled, ThreeTaken, agreed, held, threes};
ghost use Rattle.lines.specs.Taking.{Taken};
ghost use Rattle.lines.specs.declared.sampling.Kept.TheVariants.{Nothing, Single};

use crate::line::Line;
use crate::mark::Mark;

// The marks whose third has not come yet, in the order in which they came.
#[derive(Clone, Copy, PartialEq, Eq, Debug)]
pub enum Kept {
    Nothing,
    Single(Mark),
    Couple(Mark, Mark),
}

// One mark for three of the line below.
#[derive(Drop)]
pub struct Sampled<L> {
    below: L,
    kept: Kept,
}

impl<L: Line> Sampled<L> {
    // Nothing is kept at first.
    pub fn new(below: L) -> Self
        ensures { (result.below ≡ below) × (result.kept ≡ Nothing) }
    {
        Sampled {
            below,
            kept: Kept::Nothing,
        }
    }

    // The line below, and the marks that were taken from it and are no third yet.
    pub fn into_below(self) -> (L, Kept)
        ensures { (result.0 ≡ self.below) × (result.1 ≡ self.kept) }
    {
        let Sampled { below, kept } = self;
        (below, kept)
    }

    // The first two of the next three, kept; none where the line below ends before them.
    fn couple(&mut self) -> Option<(Mark, Mark)>
        ensures kept { Coupled result self.new.kept (L.Line.pending self.new.below) }
        ensures same { held self.old.kept ++ L.Line.pending self.old.below ≡ held self.new.kept ++ L.Line.pending self.new.below }
    {
        match self.kept {
            Kept::Nothing => {
                let first = self.below.take()?;
                self.kept = Kept::Single(first);
                self.second(first)
            }
            Kept::Single(first) => self.second(first),
            Kept::Couple(first, second) => Some((first, second)),
        }
    }

    // The second of the next three, kept beside the first.
    fn second(&mut self, first: Mark) -> Option<(Mark, Mark)>
        requires { self.old.kept ≡ Single first }
        ensures kept { Coupled result self.new.kept (L.Line.pending self.new.below) }
        ensures same { first ∷ L.Line.pending self.old.below ≡ held self.new.kept ++ L.Line.pending self.new.below }
    {
        let second = self.below.take()?;
        self.kept = Kept::Couple(first, second);
        Some((first, second))
    }
}

impl<L: Line> Line for Sampled<L> {
    ghost pending = { λ s. threes (held s.kept ++ L.Line.pending s.below) };

    // What was kept stays kept where the line below answers none.
    fn take(&mut self) -> Option<Mark>
        ensures next { Taken (threes (held self.old.kept ++ L.Line.pending self.old.below)) result (threes (held self.new.kept ++ L.Line.pending self.new.below)) }
        ensures kept { ThreeTaken (held self.old.kept ++ L.Line.pending self.old.below) result (held self.new.kept ++ L.Line.pending self.new.below) }
    {
        let (first, second) = self.couple()?;
        let third = self.below.take()?;
        self.kept = Kept::Nothing;
        Some(agree(first, second, third))
    }
}

// Three equal good marks give that mark; any other three give bad.
pub fn agree(first: Mark, second: Mark, third: Mark) -> Mark
    ensures { result ≡ agreed first second third }
{
    match (first, second, third) {
        (Mark::Zero, Mark::Zero, Mark::Zero) => Mark::Zero,
        (Mark::One, Mark::One, Mark::One) => Mark::One,
        _ => Mark::Bad,
    }
}
