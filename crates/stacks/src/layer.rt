// The layers that can stand over a line.
ghost use Rattle.std.specs.Prelude.{Some};
ghost use Rattle.stacks.specs.Texts.{layer_name};

use std::fmt;

#[derive(Clone, Copy, PartialEq, Eq, Debug)]
pub enum Layer {
    Reversal,
    Sampling,
}

impl fmt::Display for Layer {
    ghost output = { λ layer. Some (layer_name layer) };

    fn fmt<W: fmt::Write>(&self, f: &mut fmt::Formatter<W>) -> fmt::Result {
        f.write_str(match self {
            Layer::Reversal => "reversal",
            Layer::Sampling => "sampling",
        })
    }
}

// The names of the layers over a line, uppermost first.
#[derive(Clone, Copy, PartialEq, Eq, Debug)]
pub enum Layers {
    Bare,
    Single(Layer),
    Double(Layer, Layer),
}
