// Commands, and how they are read from a line of text.
ghost use Rattle.std.specs.Prelude.{◌≡◌, MatchResult};
ghost use Rattle.std.specs.Str.Iter.{split_whitespace_rest};
ghost use Rattle.commands.specs.declared.command.Command.TheVariants.{Work};
ghost use Rattle.commands.specs.Readings.{Chosen, Extra, Spoils};
ghost use Rattle.commands.specs.Texts.{Blank, Misreads, Reads};

use crate::misread::Misread;
use crate::words::{end, octets, one_number};
use stacks::layer::Layer;
use stacks::record::RecordKind;
use std::alloc::Global;
use std::str::SplitWhitespace;

#[derive(Drop)]
pub enum Command {
    // choose a record of these octets
    Choose(RecordKind, Vec<u8>),
    // work at the line that is chosen
    Work(Order),
}

#[derive(Clone, Copy, PartialEq, Eq, Debug)]
pub enum Order {
    // a blank line, or a comment
    Nothing,
    Put(Layer),
    Uncover,
    Take(u16),
    Describe,
    Help,
}

impl Command {
    // The command that a line of text says.
    // not `FromStr`, which gets no memory
    pub fn read(heap: Global, text: &str) -> Result<Command, Misread<'_>>
        ensures { MatchResult result (λ c. Reads text.now c) (λ e. Misreads text.now e) }
    {
        let mut words = text.split_whitespace();
        match words.next() {
            None => Ok(Command::Work(Order::Nothing)),
            Some(comment) if comment.starts_with('#') => Ok(Command::Work(Order::Nothing)),
            Some("marks") => choose(heap, RecordKind::Marks, words),
            Some("characters") => choose(heap, RecordKind::Characters, words),
            Some("reversal") => alone(words, Order::Put(Layer::Reversal)),
            Some("sampling") => alone(words, Order::Put(Layer::Sampling)),
            Some("bare") => alone(words, Order::Uncover),
            Some("take") => Ok(Command::Work(Order::Take(one_number(words)?))),
            Some("line") => alone(words, Order::Describe),
            Some("help") => alone(words, Order::Help),
            Some(name) => Err(Misread::UnknownCommand(name)),
        }
    }
}

// The order, where no word is left.
fn alone<'a>(words: SplitWhitespace<'a>, order: Order) -> Result<Command, Misread<'a>>
    ensures { MatchResult result (λ c. (c ≡ Work order) × Blank (split_whitespace_rest words.entry)) (λ e. Extra (split_whitespace_rest words.entry) e) }
{
    end(words)?;
    Ok(Command::Work(order))
}

// The record of a kind with the octets that the words write, first to last.
fn choose<'a>(
    heap: Global,
    kind: RecordKind,
    words: SplitWhitespace<'a>,
) -> Result<Command, Misread<'a>>
    ensures { MatchResult result (λ c. Chosen kind (split_whitespace_rest words.entry) c) (λ e. Spoils (split_whitespace_rest words.entry) e) }
{
    Ok(Command::Choose(kind, octets(heap, words)?))
}
