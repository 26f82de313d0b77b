// What the desk answers, in text.
ghost use Rattle.std.specs.Prelude.{◌≡◌, Some, flat_map, take};
ghost use Rattle.std.specs.Fmt.{WritesOnOk};
ghost use Rattle.desk.specs.Reports.{ending_text, octet_digits, octet_symbol, octets_text, report_text};

use crate::answer::DeskAnswer;
use hearing::answer::Ending;
use hearing::fault::ToldFault;
use lines::mark::Mark;
use std::fmt;

// An answer of the desk, with its buffers as they then are.
#[derive(Clone, Copy)]
pub struct Report<'a> {
    pub answer: DeskAnswer,
    pub marks: &'a [u8],
    pub frame: &'a [u8],
}

impl fmt::Display for Report<'_> {
    ghost output = { λ report. Some (report_text report.answer report.marks.now report.frame.now) };

    fn fmt<W: fmt::Write>(&self, f: &mut fmt::Formatter<W>) -> fmt::Result {
        match self.answer {
            DeskAnswer::Ft12 {
                fixed_length,
                gap,
                distance,
            } => write!(
                f,
                "ok FT1.2, fixed length {fixed_length}, gap {gap}, distance {distance}"
            ),
            DeskAnswer::Ft2 {
                fixed_length,
                header_length,
                gap,
                distance,
            } => write!(
                f,
                "ok FT2, fixed length {fixed_length}, header length {header_length}, gap {gap}, distance {distance}"
            ),
            DeskAnswer::NewReceiver => write!(f, "ok receiver"),
            DeskAnswer::MarkBuffer(count) => write!(f, "ok mark buffer, {count} octets"),
            DeskAnswer::FrameBuffer(count) => write!(f, "ok frame buffer, {count} octets"),
            DeskAnswer::Wrote(count) => {
                write!(f, "wrote {count}: {}", Symbols(first(self.marks, count)))
            }
            DeskAnswer::Marks => write!(f, "mark buffer, {}", Octets(self.marks)),
            DeskAnswer::Frame => write!(f, "frame buffer, {}", Octets(self.frame)),
            DeskAnswer::Heard(heard) => {
                write!(f, "heard {}: {}", heard.taken, Ended(heard.ending))
            }
            DeskAnswer::Looked(count) => write!(f, "{}", Octets(first(self.frame, count))),
            DeskAnswer::Released => write!(f, "ok released"),
            DeskAnswer::Stands(standing) => write!(f, "{standing}"),
        }
    }
}

// The first octets of a buffer, so many where it has them.
fn first(buffer: &[u8], count: usize) -> &[u8]
    ensures { result.now ≡ take count buffer.now }
{
    buffer.get(..count).unwrap_or(buffer)
}

// What ended a listen.
#[derive(Clone, Copy)]
struct Ended(Ending<ToldFault>);

impl fmt::Display for Ended {
    ghost output = { λ ended. Some (ending_text ended.0) };

    fn fmt<W: fmt::Write>(&self, f: &mut fmt::Formatter<W>) -> fmt::Result {
        match self.0 {
            Ending::Frame { kind, octets } => write!(f, "frame, kind {kind}, {octets} octets"),
            Ending::Fault(fault) => write!(
                f,
                "fault {}, {}, place {}",
                fault.number, fault.layer, fault.place
            ),
            Ending::Spent => write!(f, "spent"),
            Ending::Empty => write!(f, "line empty"),
        }
    }
}

// The octets of a mark buffer, as the marks for which they stand.
// not one with `Symbols` of `commands`, whose items are marks: that would need a trait of its own, and be longer
#[derive(Clone, Copy)]
struct Symbols<'a>(&'a [u8]);

impl fmt::Display for Symbols<'_> {
    ghost output = { λ symbols. Some (flat_map octet_symbol symbols.0.now) };

    fn fmt<W: fmt::Write>(&self, f: &mut fmt::Formatter<W>) -> fmt::Result {
        for octet in self.0 {
            write!(f, "{}", Mark::from(*octet))?;
        }
        Ok(())
    }
}

// How many octets there are, and the octets.
#[derive(Clone, Copy)]
struct Octets<'a>(&'a [u8]);

impl fmt::Display for Octets<'_> {
    ghost output = { λ octets. Some (octets_text octets.0.now) };

    fn fmt<W: fmt::Write>(&self, f: &mut fmt::Formatter<W>) -> fmt::Result {
        match self.0 {
            [] => write!(f, "0 octets"),
            octets => write!(f, "{} octets:{}", octets.len(), Digits(octets)),
        }
    }
}

// Octets as they are shown, a space and two hex digits each.
#[derive(Clone, Copy)]
struct Digits<'a>(&'a [u8]);

impl fmt::Display for Digits<'_> {
    ghost output = { λ octets. Some (flat_map octet_digits octets.0.now) };

    fn fmt<W: fmt::Write>(&self, f: &mut fmt::Formatter<W>) -> fmt::Result {
        for octet in self.0 {
            write_octet(*octet, f)?;
        }
        Ok(())
    }
}

fn write_octet<W: fmt::Write>(octet: u8, f: &mut fmt::Formatter<W>) -> fmt::Result
    ensures { WritesOnOk W.write_str_gives f.old result (octet_digits octet) f.new }
{
    write!(f, " {octet:02X}")
}
