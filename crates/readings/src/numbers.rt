// Numbers as they are keyed. Not `parse`: that takes a sign.
ghost use Rattle.std.specs.Prelude.{◌≡◌, Some};
ghost use Rattle.readings.specs.Numbers.{decimal_of, digits_on, with_digit};

// The number with one digit more; at most seven are taken besides leading zeros.
fn with_digit(number: u32, symbol: u8) -> Option<u32>
    ensures { result ≡ with_digit number symbol }
{
    match symbol {
        b'0'..=b'9' if number < 1_000_000 => Some(10 * number + u32::from(symbol - b'0')),
        _ => None,
    }
}

// The number that goes on with these digits.
pub(crate) fn digits(number: u32, symbols: &[u8]) -> Option<u32>
    ensures { result ≡ digits_on (Some number) symbols.now }
{
    symbols
        .iter()
        .try_fold(number, |number, symbol| with_digit(number, *symbol))
}

// The number with so many decimals behind its point, in units of the last decimal.
pub(crate) fn decimal(symbols: &[u8], places: usize) -> Option<u32>
    ensures { result ≡ decimal_of places symbols.now }
{
    let count = symbols.len();
    if places > 9 || count < places + 2 {
        return None;
    }
    let (whole, rest) = symbols.split_at(count - places - 1);
    let [b'.', decimals @ ..] = rest else {
        return None;
    };
    digits(digits(0, whole)?, decimals)
}
