// A mark record: one octet a mark.
ghost use Rattle.std.specs.Prelude.{◌≡◌, map};
ghost use Rattle.lines.specs.Records.{mark_of};

use crate::line::Line;
use crate::mark::Mark;

// A record held for reading: 00 is mark 0, 01 is mark 1, any other octet is bad.
#[derive(Drop)]
pub struct MarkRecord<'a> {
    octets: &'a [u8],
}

impl<'a> MarkRecord<'a> {
    // The line that gives a mark for each of the octets, first to last.
    pub fn new(octets: &'a [u8]) -> Self
        ensures { result.octets.now ≡ octets.now }
    {
        MarkRecord { octets }
    }
}

impl Line for MarkRecord<'_> {
    ghost pending = { λ s. map mark_of s.octets.now };

    fn take(&mut self) -> Option<Mark> {
        let (first, rest) = self.octets.split_first()?;
        self.octets = rest;
        Some(Mark::from(*first))
    }
}
