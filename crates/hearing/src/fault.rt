// Why a list of marks was no frame, and at which mark that showed.
ghost use Rattle.std.specs.Prelude.{◌≡◌};
ghost use Rattle.hearing.specs.Told.{told_fault};

use formats::fault::{Fault, Layer};

// The format's own fault, and its place: the number of the deciding mark, from 0 at the first of the list.
#[derive(Clone, Copy, PartialEq, Eq, Debug)]
pub struct ReceiverFault<E> {
    fault: E,
    place: u16,
}

// A fault that a format found is at the first mark unless the receiver puts it elsewhere.
impl<E: Fault> From<E> for ReceiverFault<E> {
    ghost from_gives = { λ e r. (r.fault ≡ e) × (r.place ≡ 0) };

    fn from(fault: E) -> Self {
        ReceiverFault { fault, place: 0 }
    }
}

impl<E: Fault> ReceiverFault<E> {
    // The same fault at another place.
    pub fn at(self, place: u16) -> Self
        ensures { (result.fault ≡ self.fault) × (result.place ≡ place) }
    {
        let ReceiverFault { fault, place: _ } = self;
        ReceiverFault { fault, place }
    }

    pub fn place(&self) -> u16
        ensures { result ≡ self.now.place }
    {
        self.place
    }

    // The fault as the format told it.
    pub fn fault(&self) -> &E
        ensures { result.now ≡ self.now.fault }
    {
        &self.fault
    }
}

impl<E: Fault> Fault for ReceiverFault<E> {
    ghost cause = { λ s. E.Fault.cause s.fault };

    fn number(&self) -> u8 {
        self.fault.number()
    }

    fn layer(&self) -> Layer {
        self.fault.layer()
    }
}

// A fault as it is told to callers, whatever the format.
#[derive(Clone, Copy, PartialEq, Eq, Debug)]
pub struct ToldFault {
    pub number: u8,
    pub layer: Layer,
    pub place: u16,
}

impl<E: Fault + Drop> From<ReceiverFault<E>> for ToldFault {
    ghost from_gives = { λ f t. t ≡ told_fault E.Fault.cause f };

    fn from(fault: ReceiverFault<E>) -> Self {
        ToldFault {
            number: fault.number(),
            layer: fault.layer(),
            place: fault.place(),
        }
    }
}
