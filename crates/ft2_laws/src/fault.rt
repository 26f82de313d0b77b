// What can be wrong with an FT2 frame.
ghost use Rattle.std.specs.Prelude.{◌≡◌};
ghost use Rattle.ft2_laws.specs.Faults.{ft2_cause};
ghost use Rattle.ft2_laws.specs.declared.fault.Ft2Fault.TheVariants as fault;

use formats::fault::{Fault, Layer, LineFault};

#[derive(Clone, Copy, PartialEq, Eq, Debug)]
pub enum Ft2Fault {
    // in a mark
    Line(LineFault),
    // the first octet starts no frame
    StartOctet,
    // a check octet is not that of its block
    CheckOctet,
    // the header counts more than 15 body octets
    BodyCount,
}

impl From<LineFault> for Ft2Fault {
    ghost from_gives = { λ below r. r ≡ fault.Line below };

    fn from(below: LineFault) -> Ft2Fault {
        Self::Line(below)
    }
}

// told by cases: one that holds the fault of a layer below has no number of its own
impl Fault for Ft2Fault {
    ghost cause = { ft2_cause };

    fn number(&self) -> u8 {
        match *self {
            Ft2Fault::Line(below) => below.number(),
            Ft2Fault::StartOctet => 25,
            Ft2Fault::CheckOctet => 30,
            Ft2Fault::BodyCount => 31,
        }
    }

    fn layer(&self) -> Layer {
        match *self {
            Ft2Fault::Line(below) => below.layer(),
            Ft2Fault::StartOctet | Ft2Fault::CheckOctet | Ft2Fault::BodyCount => Layer::Frame,
        }
    }
}
