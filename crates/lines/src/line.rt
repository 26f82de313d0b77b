// What a line is.
ghost use Rattle.std.specs.Prelude.{List};
ghost use Rattle.lines.specs.declared.mark.Mark.{Mark};
ghost use Rattle.lines.specs.Taking.{Taken};

use crate::mark::Mark;

// A line means the finite list of marks still to come.
pub trait Line {
    ghost pending: { Self → List Mark };

    // The next mark, removed from the list; none where the list is empty, and it still is.
    fn take(&mut self) -> Option<Mark>
        ensures { Taken (pending self.old) result (pending self.new) };
}
