// Reversal: a line whose pair of wires is exchanged.
ghost use Rattle.std.specs.Prelude.{◌≡◌, map};
ghost use Rattle.lines.specs.Layers.{exchanged};

use crate::line::Line;
use crate::mark::Mark;

// The line below with 0 and 1 exchanged.
#[derive(Drop)]
pub struct Reversed<L> {
    below: L,
}

impl<L: Line> Reversed<L> {
    pub fn new(below: L) -> Self
        ensures { result.below ≡ below }
    {
        Self { below }
    }

    // The line below, with all that it still has to give.
    pub fn into_below(self) -> L
        ensures { result ≡ self.below }
    {
        let Reversed { below } = self;
        below
    }
}

impl<L: Line> Line for Reversed<L> {
    ghost pending = { λ s. map exchanged (L.Line.pending s.below) };

    fn take(&mut self) -> Option<Mark> {
        let mark = self.below.take()?;
        Some(exchange(mark))
    }
}

// 0 for 1 and 1 for 0; bad stays bad.
pub fn exchange(mark: Mark) -> Mark
    ensures { result ≡ exchanged mark }
{
    match mark {
        Mark::Zero => Mark::One,
        Mark::One => Mark::Zero,
        Mark::Bad => Mark::Bad,
    }
}
