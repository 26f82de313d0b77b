// The register that the bits of a block are taken into.
ghost use Rattle.std.specs.Prelude.{◌<◌};

pub mod taking;

// The remainder of the bits so far, and whether the ones among them are odd in number.
#[derive(Clone, Copy, PartialEq, Eq, Debug)]
pub struct Register {
    rest: u8,
    odd: bool,
    ghost bounded: { rest < 128 },
}
