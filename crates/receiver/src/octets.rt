// The user octets of a frame, read where they lie.
ghost use Rattle.std.specs.Prelude.{◌≡◌, ℕ, List, ◌++◌, length, take};

use crate::receiver::FRAME_OCTETS;

// The first octets of a frame buffer.
#[derive(Drop)]
pub struct UserOctets<'a> {
    octets: &'a [u8],
}

impl<'a> UserOctets<'a> {
    // The first `count` octets of a buffer that begins with the frame.
    pub(crate) fn first(frame: &'a [u8; FRAME_OCTETS], count: u8) -> Self
        ensures { (rest : List ℕ) → result.octets.now ≡ take count (frame.now ++ rest) }
    {
        UserOctets {
            octets: &frame[..count as usize],
        }
    }

    // The octets as a slice.
    pub fn as_slice(&self) -> &[u8]
        ensures { result.now ≡ self.now.octets.now }
    {
        self.octets
    }

    // How many there are.
    pub fn len(&self) -> usize
        ensures { result ≡ length self.now.octets.now }
    {
        self.as_slice().len()
    }
}
