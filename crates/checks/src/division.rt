// The division of a block's bits by the polynomial of FT2.
ghost use Rattle.std.specs.Prelude.{◌≡◌, ◌<◌};
ghost use Rattle.checks.specs.Check.{generator};
ghost use Rattle.checks.specs.Division.{DivisionLaw, OfDegree, step as stepped};

// x^7 + x^6 + x^5 + x^2 + 1
const POLYNOMIAL: u8 = 0xE5;

// x^7
const TOP: u8 = 0x80;

// The polynomial that divides. The bits taken in one by one give the remainder, and there is only one.
pub fn divisor() -> u8
    ensures value { result ≡ generator }
    ensures degree { OfDegree 7 result }
    ensures law { DivisionLaw }
{
    POLYNOMIAL
}

// The remainder moves up by one power, the bit comes in at x^7, and where that is reached the polynomial goes out.
pub(crate) fn step(rest: u8, bit: bool) -> u8
    requires { rest < 128 }
    ensures value { result ≡ stepped 7 generator rest bit }
    ensures bound { result < 128 }
{
    let taken = (rest << 1) ^ (u8::from(bit) << 7);
    if taken < TOP {
        taken
    } else {
        taken ^ POLYNOMIAL
    }
}
