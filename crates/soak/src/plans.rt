// The frames that are put behind the gaps.
use crate::noise::Noise;
use std::alloc::{AllocFailed, Global};

// A frame to put behind the gap: the number of its kind, whatever the format, and its user octets.
#[derive(Drop)]
pub struct Sent {
    pub kind: u8,
    pub octets: Vec<u8>,
}

// A kind that is sent in turn, with its first octet, where it counts the others, and the count of the others.
#[derive(Clone, Copy)]
pub struct Plan {
    kind: u8,
    first: Option<u8>,
    rest: u8,
}

pub const FT12_PLANS: [Plan; 4] = [
    Plan {
        kind: 1,
        first: None,
        rest: 8,
    },
    Plan {
        kind: 2,
        first: None,
        rest: 5,
    },
    Plan {
        kind: 3,
        first: None,
        rest: 0,
    },
    Plan {
        kind: 4,
        first: None,
        rest: 0,
    },
];

pub const FT2_PLANS: [Plan; 4] = [
    Plan {
        kind: 1,
        first: None,
        rest: 20,
    },
    Plan {
        kind: 2,
        first: Some(2),
        rest: 4,
    },
    Plan {
        kind: 2,
        first: Some(0),
        rest: 2,
    },
    Plan {
        kind: 2,
        first: Some(15),
        rest: 17,
    },
];

impl Plan {
    // A frame of the plan, with octets of noise.
    pub fn fill(&self, heap: Global, noise: &mut Noise) -> Result<Sent, AllocFailed<u8>> {
        let mut octets = Vec::new(heap);
        if let Some(first) = self.first {
            octets.push(first)?;
        }
        noise.octets(&mut octets, self.rest)?;
        Ok(Sent {
            kind: self.kind,
            octets,
        })
    }
}
