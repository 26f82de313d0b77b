// An octet by its bits.
ghost use Rattle.std.specs.Prelude.{◌≡◌};
ghost use Rattle.checks.specs.Bits.{octet_bits};

// The eight bits in sending order, highest first.
pub fn octet_bits(octet: u8) -> [bool; 8]
    ensures { result ≡ octet_bits octet }
{
    std::array::from_fn(|k| (octet >> (7 - k)) & 1 == 1)
}
