// Sites, rows and lost frames in text.
ghost use Rattle.std.specs.Prelude.{Some};
ghost use Rattle.day.specs.Texts.{difference_text, lost_text, row_text, side_text, site_text};

use crate::batches::Row;
use crate::entry::{Lost, Site};
use readings::reading::Reading;
use readings::text::Hundredths;
use std::fmt;

// A difference in hundredths of mm²/s, with its sign.
#[derive(Clone, Copy)]
struct Difference(i32);

impl fmt::Display for Difference {
    ghost output = { λ d. Some (difference_text d.0) };

    fn fmt<W: fmt::Write>(&self, f: &mut fmt::Formatter<W>) -> fmt::Result {
        let sign = if self.0 < 0 { '-' } else { '+' };
        write!(f, "{sign}{}", Hundredths(self.0.unsigned_abs()))
    }
}

impl fmt::Display for Site {
    ghost output = { λ site. Some (site_text site) };

    fn fmt<W: fmt::Write>(&self, f: &mut fmt::Formatter<W>) -> fmt::Result {
        f.write_str(match self {
            Site::Line => "line",
            Site::Lab => "lab",
        })
    }
}

// The reading of a site, or that there is none.
#[derive(Clone, Copy)]
struct Side {
    site: Site,
    reading: Option<Reading>,
}

impl fmt::Display for Side {
    ghost output = { λ side. Some (side_text side.site side.reading) };

    fn fmt<W: fmt::Write>(&self, f: &mut fmt::Formatter<W>) -> fmt::Result {
        match self.reading {
            Some(reading) => write!(f, "{} {reading}", self.site),
            None => write!(f, "no {} reading", self.site),
        }
    }
}

impl fmt::Display for Row {
    ghost output = { λ row. Some (row_text row) };

    fn fmt<W: fmt::Write>(&self, f: &mut fmt::Formatter<W>) -> fmt::Result {
        let line = Side {
            site: Site::Line,
            reading: self.line,
        };
        let lab = Side {
            site: Site::Lab,
            reading: self.lab,
        };
        write!(f, "batch {}: {line}, {lab}", self.batch)?;
        match self.difference() {
            Some(hundredths) => write!(f, ", lab less line {} mm²/s", Difference(hundredths)),
            None => Ok(()),
        }
    }
}

// What is wrong with a frame.
impl fmt::Display for Lost {
    ghost output = { λ lost. Some (lost_text lost) };

    fn fmt<W: fmt::Write>(&self, f: &mut fmt::Formatter<W>) -> fmt::Result {
        match *self {
            Lost::Kind(kind) => write!(f, "no reading: a frame of kind {kind}"),
            Lost::Octets(why) => write!(f, "no reading: {why}"),
            Lost::NotBath => f.write_str("no reading: the bath is at 40.0 °C"),
            Lost::Damaged(fault) => write!(
                f,
                "damaged: fault {}, layer {}, at mark {}",
                fault.number, fault.layer, fault.place
            ),
        }
    }
}
