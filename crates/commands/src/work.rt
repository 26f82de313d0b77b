// What the orders do at a line.
ghost use Rattle.std.specs.Prelude.{◌≡◌};
ghost use Rattle.commands.specs.Orders.{Obeyed, Took};
ghost use Rattle.stacks.specs.Stacks.{layers_on, stacked};

use crate::answer::{Answer, Setup, Undone};
use crate::command::Order;
use lines::line::Line;
use stacks::record::RecordKind;
use stacks::stack::Stack;
use std::alloc::Global;

// The answer to an order, and the line after it. The line goes by value, since a layer holds the line below by value.
pub fn obey<L: Line>(
    heap: Global,
    kind: RecordKind,
    line: Stack<L>,
    order: Order,
) -> (Result<Answer, Undone>, Stack<L>)
    ensures { Obeyed (stacked L.Line.pending) kind line order result.0 result.1 }
{
    match order {
        Order::Nothing => (Ok(Answer::Nothing), line),
        Order::Put(layer) => match line.put(layer) {
            Ok(next) => (Ok(Answer::Line(Setup::of(&next, kind))), next),
            Err(same) => (Err(Undone::TwoLayers(Setup::of(&same, kind))), same),
        },
        Order::Uncover => match line.uncover() {
            Ok((next, kept)) => (Ok(Answer::Uncovered(Setup::of(&next, kind), kept)), next),
            Err(same) => (Err(Undone::NoLayer(Setup::of(&same, kind))), same),
        },
        Order::Take(count) => {
            let mut line = line;
            (take(heap, &mut line, count), line)
        }
        Order::Describe => (Ok(Answer::Line(Setup::of(&line, kind))), line),
        Order::Help => (Ok(Answer::Help), line),
    }
}

fn take<L: Line>(heap: Global, line: &mut Stack<L>, count: u16) -> Result<Answer, Undone>
    ensures took { Took (stacked L.Line.pending) line.old count result line.new }
    ensures same { layers_on line.new ≡ layers_on line.old }
{
    let marks = line.take_marks(heap, count)?;
    if marks.len() < usize::from(count) {
        Ok(Answer::TookAll(marks))
    } else {
        Ok(Answer::Took(marks))
    }
}
