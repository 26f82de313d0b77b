// Bits into the register, and the check octet out of it.
ghost use Rattle.std.specs.Prelude.{◌≡◌, Bool, List, [], ◌∷◌, ◌++◌};
ghost use Rattle.checks.specs.Bits.{octet_bits};
ghost use Rattle.checks.specs.Check.{check_octet};
ghost use Rattle.checks.specs.Standing.{Stands};

use crate::division::step;
use crate::octet::octet_bits;
use crate::register::Register;

impl Register {
    // No bits yet. Kept without Default, whose derive is refused beside a ghost field: by hand it is no plainer.
    pub fn new() -> Self
        ensures { Stands result [] }
    {
        Register {
            rest: 0,
            odd: false,
        }
    }

    // One bit more.
    pub fn take(&mut self, bit: bool)
        ensures { (u : List Bool) → Stands self.old u → Stands self.new (u ++ (bit ∷ [])) }
    {
        self.rest = step(self.rest, bit);
        self.odd = self.odd != bit;
    }

    // The eight bits of an octet, highest first. Inline: as a call it costs FT2's reader a third more at every mark.
    #[inline(always)]
    pub fn take_octet(&mut self, octet: u8)
        ensures { (u : List Bool) → Stands self.old u → Stands self.new (u ++ octet_bits octet) }
    {
        for bit in octet_bits(octet) {
            self.take(bit);
        }
    }

    // The check octet of the bits so far: seven remainder bits and the parity bit, all inverted.
    pub fn check(&self) -> u8
        ensures { (u : List Bool) → Stands self.now u → result ≡ check_octet u }
    {
        let parity = self.odd != (self.rest.count_ones() % 2 == 1);
        !((self.rest << 1) | u8::from(parity))
    }
}
