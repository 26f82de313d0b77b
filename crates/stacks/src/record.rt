// A record of either kind as a line.
ghost use Rattle.std.specs.Prelude.{◌≡◌, ◌%◌, length, Some, MatchResult};
ghost use Rattle.lines.specs.declared.refusal.RecordRefusal.TheVariants.{OddOctetCount};
ghost use Rattle.stacks.specs.declared.record.RecordKind.TheVariants.{Characters as KindCharacters};
ghost use Rattle.stacks.specs.Records.{Suits, marks_in, recorded};
ghost use Rattle.stacks.specs.Texts.{kind_name};

use lines::character_record::CharacterRecord;
use lines::line::Line;
use lines::mark::Mark;
use lines::mark_record::MarkRecord;
use lines::refusal::RecordRefusal;
use std::fmt;

#[derive(Clone, Copy, PartialEq, Eq, Debug)]
pub enum RecordKind {
    Marks,
    Characters,
}

impl fmt::Display for RecordKind {
    ghost output = { λ kind. Some (kind_name kind) };

    fn fmt<W: fmt::Write>(&self, f: &mut fmt::Formatter<W>) -> fmt::Result {
        f.write_str(match self {
            RecordKind::Marks => "marks",
            RecordKind::Characters => "characters",
        })
    }
}

// an enum and no `dyn`, since the gate lets no function hand out a `dyn` value that it made
#[derive(Drop)]
pub enum Record<'a> {
    Marks(MarkRecord<'a>),
    Characters(CharacterRecord<'a>),
}

impl<'a> Record<'a> {
    // The line that gives the marks of a record, first to last. A character record of an odd number of octets is refused.
    pub fn new(kind: RecordKind, octets: &'a [u8]) -> Result<Self, RecordRefusal>
        ensures { MatchResult result (λ s. Suits kind octets.now × (recorded s ≡ marks_in kind octets.now)) (λ e. (kind ≡ KindCharacters) × (length octets.now % 2 ≡ 1) × (e ≡ OddOctetCount)) }
    {
        match kind {
            RecordKind::Marks => Ok(Record::Marks(MarkRecord::new(octets))),
            RecordKind::Characters => Ok(Record::Characters(CharacterRecord::new(octets)?)),
        }
    }
}

impl Line for Record<'_> {
    ghost pending = { recorded };

    fn take(&mut self) -> Option<Mark> {
        match self {
            Record::Marks(record) => record.take(),
            Record::Characters(record) => record.take(),
        }
    }
}
