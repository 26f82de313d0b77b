// The check octet of a whole block.
ghost use Rattle.std.specs.Prelude.{◌≡◌};
ghost use Rattle.checks.specs.Bits.{block_bits};
ghost use Rattle.checks.specs.Check.{Rule, Worked, check_octet};

use crate::register::Register;

// The check octet that is sent after a block.
pub fn check_octet(block: &[u8]) -> u8
    ensures octet { result ≡ check_octet (block_bits block.now) }
    ensures rule { Rule (block_bits block.now) result }
    ensures worked { Worked }
{
    let mut register = Register::new();
    for octet in block {
        register.take_octet(*octet);
    }
    register.check()
}

#[cfg(test)]
mod tests {
    use super::*;

    #[test]
    fn one_octet(rt: HostRuntime) {
        assert_eq!(rt; check_octet(&[0x00]), 0xFF);
        assert_eq!(rt; check_octet(&[0x01]), 0x34);
        assert_eq!(rt; check_octet(&[0x80]), 0xF8);
        assert_eq!(rt; check_octet(&[0xFF]), 0xBD);
    }

    #[test]
    fn fifteen_octets(rt: HostRuntime) {
        assert_eq!(rt; check_octet(&[0xFF; 15]), 0x00);
    }
}
