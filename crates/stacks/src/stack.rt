// A line with up to two layers over it.
ghost use Rattle.std.specs.Prelude.{◌≡◌, [], ◌∷◌, length, Some, None, MatchResult};
ghost use Rattle.stacks.specs.Layering.{through};
ghost use Rattle.stacks.specs.Stacks.{TookMarks, Uncovers, layers_on, names_in, stacked, uncovered};
ghost use Rattle.lines.specs.declared.sampling.Kept.TheVariants.{Nothing};
ghost use Rattle.lines.specs.Taking.{Taken};

use crate::layer::{Layer, Layers};
use crate::layered::Layered;
use lines::line::Line;
use lines::mark::Mark;
use lines::reversal::Reversed;
use lines::sampling::{Kept, Sampled};
use std::alloc::{AllocError, Global};

// Two layers stand by the lower one's name, since a line says of a take only which marks are then to come.
#[derive(Drop)]
pub enum Stack<L> {
    Bare(L),
    Single(Layered<L>),
    OverReversal(Layered<Reversed<L>>),
    OverSampling(Layered<Sampled<L>>),
}

impl<L: Line> Stack<L> {
    // The layer over the line as it now is. Where two layers stand the line is given back as it was.
    pub fn put(self, layer: Layer) -> Result<Self, Self>
        ensures cases { MatchResult result (λ s. (uncovered s ≡ Some (self, Nothing)) × (layers_on s ≡ layer ∷ layers_on self)) (λ s. (s ≡ self) × (length (layers_on self) ≡ 2)) }
        ensures marks { MatchResult result (λ s. stacked L.Line.pending s ≡ through layer (stacked L.Line.pending self)) (λ s. s ≡ self) }
    {
        match self {
            Stack::Bare(line) => Ok(Stack::Single(Layered::over(layer, line))),
            Stack::Single(Layered::Reversal(line)) => {
                Ok(Stack::OverReversal(Layered::over(layer, line)))
            }
            Stack::Single(Layered::Sampling(line)) => {
                Ok(Stack::OverSampling(Layered::over(layer, line)))
            }
            full => Err(full),
        }
    }

    // The names of the layers.
    pub fn layers(&self) -> Layers
        ensures { names_in result ≡ layers_on self.now }
    {
        match self {
            Stack::Bare(_) => Layers::Bare,
            Stack::Single(line) => Layers::Single(line.layer()),
            Stack::OverReversal(line) => Layers::Double(line.layer(), Layer::Reversal),
            Stack::OverSampling(line) => Layers::Double(line.layer(), Layer::Sampling),
        }
    }

    // Up to `count` marks, first to last; fewer only where none is left. Without memory none is taken.
    pub fn take_marks(&mut self, heap: Global, count: u16) -> Result<Vec<Mark>, AllocError>
        ensures taken { MatchResult result (λ marks. TookMarks (stacked L.Line.pending self.old) count marks.items (stacked L.Line.pending self.new)) (λ _. self.new ≡ self.old) }
        ensures same { layers_on self.new ≡ layers_on self.old }
    {
        let mut marks = Vec::with_capacity(heap, usize::from(count))?;
        // not collected from an iterator, which would take marks before it has the memory for all
        for taken in 0..count {
            let Some(mark) = self.take() else {
                return Ok(marks);
            };
            marks.push_reserved(mark);
        }
        Ok(marks)
    }

    // The line below the uppermost layer, as it now is, and what that layer kept. With no layer it is given back.
    pub fn uncover(self) -> Result<(Self, Kept), Self>
        ensures cases { MatchResult result (λ s. uncovered self ≡ Some (s.0, s.1)) (λ s. (s ≡ self) × (uncovered self ≡ None)) }
        ensures marks { MatchResult result (λ s. Uncovers (stacked L.Line.pending) self s.0 s.1) (λ s. layers_on self ≡ []) }
    {
        match self {
            Stack::Bare(line) => Err(Stack::Bare(line)),
            Stack::Single(line) => {
                let (below, kept) = line.into_below();
                Ok((Stack::Bare(below), kept))
            }
            Stack::OverReversal(line) => {
                let (below, kept) = line.into_below();
                Ok((Stack::Single(Layered::Reversal(below)), kept))
            }
            Stack::OverSampling(line) => {
                let (below, kept) = line.into_below();
                Ok((Stack::Single(Layered::Sampling(below)), kept))
            }
        }
    }
}

impl<L: Line> Line for Stack<L> {
    ghost pending = { stacked L.Line.pending };

    fn take(&mut self) -> Option<Mark>
        ensures taken { Taken (stacked L.Line.pending self.old) result (stacked L.Line.pending self.new) }
        ensures same { layers_on self.new ≡ layers_on self.old }
    {
        match self {
            Stack::Bare(line) => line.take(),
            Stack::Single(line) => line.take(),
            Stack::OverReversal(line) => line.take(),
            Stack::OverSampling(line) => line.take(),
        }
    }
}
