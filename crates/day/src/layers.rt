// The layers that a capture is heard through.
ghost use Rattle.std.specs.Prelude.{◌≡◌, Some, IfOk, MatchResult, codes};
ghost use Rattle.day.specs.Hearing.{Told, begin, run};
ghost use Rattle.day.specs.Layered.{NoLayers, layered, layers_word};

use crate::entry::{Entry, Site};
use crate::hear::hear;
use formats::format::ReadFormat;
use lines::line::Line;
use lines::reversal::Reversed;
use lines::sampling::Sampled;
use std::alloc::{AllocError, Global};
use std::error::Error;
use std::fmt;
use std::str::FromStr;

// How the marks of a record come to the line.
#[derive(Clone, Copy, PartialEq, Eq, Debug)]
pub enum Layers {
    Plain,
    Reversed,
    Sampled,
    // reversal over sampling over the record
    ReversedSampled,
}

// A word that names no layers.
#[derive(Clone, Copy, PartialEq, Eq, Debug)]
pub struct UnknownLayers;

impl fmt::Display for UnknownLayers {
    ghost output = { λ _. Some (codes "none of plain, reversed, sampled, reversed-sampled") };

    fn fmt<W: fmt::Write>(&self, f: &mut fmt::Formatter<W>) -> fmt::Result {
        f.write_str("none of plain, reversed, sampled, reversed-sampled")
    }
}

impl Error for UnknownLayers {}

// The layers that a word names.
impl FromStr for Layers {
    type Err = UnknownLayers;

    ghost from_str_gives = { λ word r. MatchResult r (λ l. word ≡ layers_word l) (λ _. NoLayers word) };

    fn from_str(word: &str) -> Result<Layers, UnknownLayers> {
        match word {
            "plain" => Ok(Layers::Plain),
            "reversed" => Ok(Layers::Reversed),
            "sampled" => Ok(Layers::Sampled),
            "reversed-sampled" => Ok(Layers::ReversedSampled),
            _ => Err(UnknownLayers),
        }
    }
}

// Listens to a line through the layers until it is empty.
// A match: the merge gate lets no function hand out a `dyn` line.
pub fn hear_through<F: ReadFormat + Drop, L: Line + Drop>(
    heap: Global,
    site: Site,
    format: F,
    layers: Layers,
    mut line: L,
) -> Result<Vec<Entry>, AllocError>
where
    F::Fault: Copy,
    ensures { IfOk result (λ v. Told site (run (F.ReadFormat.model format) begin (layered layers (L.Line.pending line))) v.items) }
{
    match layers {
        Layers::Plain => hear(heap, site, format, &mut line),
        Layers::Reversed => hear(heap, site, format, &mut Reversed::new(line)),
        Layers::Sampled => hear(heap, site, format, &mut Sampled::new(line)),
        Layers::ReversedSampled => {
            hear(heap, site, format, &mut Reversed::new(Sampled::new(line)))
        }
    }
}
