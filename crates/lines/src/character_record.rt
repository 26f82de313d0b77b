// A character record: two octets an entry, a status and a data octet, and eleven marks an entry.
ghost use Rattle.std.specs.Prelude.{◌≡◌, ◌≤◌, ◌%◌, length, MatchResult};
ghost use Rattle.lines.specs.Entries.{entries, left_from};
ghost use Rattle.lines.specs.declared.refusal.RecordRefusal.TheVariants.{OddOctetCount};

use crate::character::{Status, entry_mark};
use crate::line::Line;
use crate::mark::Mark;
use crate::refusal::RecordRefusal;

// A record held for reading: its entries still to come, and the place of the next mark in the first of them.
#[derive(Drop)]
pub struct CharacterRecord<'a> {
    octets: &'a [u8],
    place: u8,
    ghost within: { place ≤ 10 },
}

impl<'a> CharacterRecord<'a> {
    // The line that gives the marks of the record's entries, first to last. An odd number of octets is refused.
    pub fn new(octets: &'a [u8]) -> Result<Self, RecordRefusal>
        ensures { MatchResult result (λ s. (length octets.now % 2 ≡ 0) × (left_from s.place s.octets.now ≡ entries octets.now)) (λ e. (length octets.now % 2 ≡ 1) × (e ≡ OddOctetCount)) }
    {
        if octets.len() % 2 == 1 {
            return Err(RecordRefusal::OddOctetCount);
        }
        Ok(CharacterRecord { octets, place: 0 })
    }
}

impl Line for CharacterRecord<'_> {
    ghost pending = { λ s. left_from s.place s.octets.now };

    fn take(&mut self) -> Option<Mark> {
        let (status, rest) = self.octets.split_first()?;
        let (octet, later) = rest.split_first()?;
        let mark = entry_mark(Status::from(*status), *octet, self.place)?;
        if self.place < 10 {
            self.place += 1;
        } else {
            self.place = 0;
            self.octets = later;
        }
        Some(mark)
    }
}
