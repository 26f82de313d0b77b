// The readings of a day by batch: line against lab.
ghost use Rattle.std.specs.Prelude.{◌≡◌, ◌-◌, ◌<◌, Some, None, IfSome};
ghost use Rattle.std.specs.Iterator.{at_most};
ghost use Rattle.day.specs.Batches.{difference_of, is_wanted, last_of, least_above, lower, row_after, standing_after};

use crate::entry::Entry;
use readings::reading::Reading;

// A batch of which there is a reading, from the line or the lab or both.
#[derive(Clone, Copy)]
pub struct Row {
    pub batch: u16,
    pub line: Option<Reading>,
    pub lab: Option<Reading>,
}

// Whether a reading is wanted: each is, or those of one batch.
fn wanted(batch: Option<u16>, reading: Reading) -> bool
    ensures { result ≡ is_wanted batch reading }
{
    batch.is_none_or(|batch| reading.batch() == batch)
}

// The last reading, of a batch or of all: it is the one that counts.
pub fn last_reading(entries: &[Entry], batch: Option<u16>) -> Option<Reading>
    ensures { result ≡ last_of batch None entries.now }
{
    entries
        .iter()
        .filter_map(|entry| entry.ok())
        .filter(|reading| wanted(batch, *reading))
        .last()
}

// The lowest batch above a number of which there is a reading.
pub fn next_batch(entries: &[Entry], after: u16) -> Option<u16>
    ensures { result ≡ least_above after None entries.now }
{
    entries
        .iter()
        .filter_map(|entry| entry.ok())
        .map(|reading| reading.batch())
        .filter(|batch| after < *batch)
        .min()
}

// The lowest batch above a number of which either capture has a reading.
fn next_of_either(line: &[Entry], lab: &[Entry], after: u16) -> Option<u16>
    ensures { result ≡ lower (least_above after None line.now) (least_above after None lab.now) }
{
    [line, lab]
        .iter()
        .filter_map(|entries| next_batch(entries, after))
        .min()
}

// The next batch above a number, of either capture, with the last reading of each.
pub fn next_row(line: &[Entry], lab: &[Entry], after: u16) -> Option<Row>
    ensures row { result ≡ row_after line.now lab.now after }
    ensures above { IfSome result (λ row. after < row.batch) }
{
    let batch = next_of_either(line, lab, after)?;
    Some(Row {
        batch,
        line: last_reading(line, Some(batch)),
        lab: last_reading(lab, Some(batch)),
    })
}

impl Row {
    // Lab less line, in hundredths, where there are both.
    pub fn difference(&self) -> Option<i32>
        ensures { result ≡ difference_of self.now.line self.now.lab }
    {
        let line = self.line?.viscosity();
        let lab = self.lab?.viscosity();
        Some(lab as i32 - line as i32)
    }
}

// The rows of a day, in the order of their batches. No map of rows: it would need memory, which `next_row` doesn't.
#[derive(Drop)]
pub struct Rows<'a> {
    line: &'a [Entry],
    lab: &'a [Entry],
    // the batch of the row that came last
    after: u16,
}

impl<'a> Rows<'a> {
    pub fn new(line: &'a [Entry], lab: &'a [Entry]) -> Rows<'a>
        ensures { (result.line.now ≡ line.now) × (result.lab.now ≡ lab.now) × (result.after ≡ 0) }
    {
        Rows {
            line,
            lab,
            after: 0,
        }
    }
}

impl Iterator for Rows<'_> {
    type Item = Row;

    ghost next_gives = { λ s r t. (r ≡ row_after s.line.now s.lab.now s.after) × (t.line.now ≡ s.line.now) × (t.lab.now ≡ s.lab.now) × (t.after ≡ standing_after s.after r) };

    ghost remaining = { λ s. at_most (65535 - s.after) };

    fn next(&mut self) -> Option<Row> {
        let row = next_row(self.line, self.lab, self.after)?;
        self.after = row.batch;
        Some(row)
    }
}
