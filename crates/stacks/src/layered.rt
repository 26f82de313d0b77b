// A line with one layer over it.
ghost use Rattle.std.specs.Prelude.{◌≡◌};
ghost use Rattle.stacks.specs.Layering.{layered, layer_on, below_of, kept_of};
ghost use Rattle.lines.specs.declared.sampling.Kept.TheVariants.{Nothing};
ghost use Rattle.lines.specs.Taking.{Taken};

use crate::layer::Layer;
use lines::line::Line;
use lines::mark::Mark;
use lines::reversal::Reversed;
use lines::sampling::{Kept, Sampled};

// an enum and no `dyn`, since the gate lets no function hand out a `dyn` value that it made
#[derive(Drop)]
pub enum Layered<L> {
    Reversal(Reversed<L>),
    Sampling(Sampled<L>),
}

impl<L: Line> Layered<L> {
    // The layer over a line; nothing is kept at first.
    pub(crate) fn over(layer: Layer, below: L) -> Self
        ensures named { layer_on result ≡ layer }
        ensures line { below_of result ≡ below }
        ensures fresh { kept_of result ≡ Nothing }
    {
        match layer {
            Layer::Reversal => Layered::Reversal(Reversed::new(below)),
            Layer::Sampling => Layered::Sampling(Sampled::new(below)),
        }
    }

    // The layer's name.
    pub(crate) fn layer(&self) -> Layer
        ensures { result ≡ layer_on self.now }
    {
        match self {
            Layered::Reversal(_) => Layer::Reversal,
            Layered::Sampling(_) => Layer::Sampling,
        }
    }

    // The line below, as it now is, and the marks that the layer kept of it.
    pub(crate) fn into_below(self) -> (L, Kept)
        ensures line { result.0 ≡ below_of self }
        ensures kept { result.1 ≡ kept_of self }
    {
        match self {
            Layered::Reversal(line) => (line.into_below(), Kept::Nothing),
            Layered::Sampling(line) => line.into_below(),
        }
    }
}

impl<L: Line> Line for Layered<L> {
    ghost pending = { layered L.Line.pending };

    fn take(&mut self) -> Option<Mark>
        ensures taken { Taken (layered L.Line.pending self.old) result (layered L.Line.pending self.new) }
        ensures same { layer_on self.new ≡ layer_on self.old }
    {
        match self {
            Layered::Reversal(line) => line.take(),
            Layered::Sampling(line) => line.take(),
        }
    }
}
