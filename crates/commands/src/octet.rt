// An octet as two hex digits.
ghost use Rattle.std.specs.Prelude.{◌≡◌};
ghost use Rattle.commands.specs.Octets.{digit_of, octet_of};

// The value of a hex digit, of upper or lower case.
fn hex_digit(symbol: u8) -> Option<u8>
    ensures { result ≡ digit_of symbol }
{
    let digit = char::from(symbol).to_digit(16)?;
    Some(digit as u8)
}

// The octet that a word of two hex digits writes.
// not `u8::from_str_radix`, which takes a sign and a single digit
pub fn octet(word: &str) -> Option<u8>
    ensures { result ≡ octet_of word.now }
{
    match word.as_bytes() {
        [high, low] => Some(16 * hex_digit(*high)? + hex_digit(*low)?),
        _ => None,
    }
}
