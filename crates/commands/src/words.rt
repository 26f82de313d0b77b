// What the words behind the name of a command write.
ghost use Rattle.std.specs.Prelude.{MatchResult};
ghost use Rattle.std.specs.Str.Iter.{split_whitespace_rest};
ghost use Rattle.commands.specs.Texts.{Blank, Decimal, NextNumber, NoNumber, OneNumber, Writes};
ghost use Rattle.commands.specs.Readings.{Extra, Miscounts, NotNumber, Spoils};

use crate::misread::{Misread, NumberFault};
use crate::octet::octet;
use std::alloc::Global;
use std::num::IntErrorKind;
use std::str::SplitWhitespace;

// No word is left.
pub fn end<'a>(mut words: SplitWhitespace<'a>) -> Result<(), Misread<'a>>
    ensures { MatchResult result (λ _. Blank (split_whitespace_rest words.entry)) (λ e. Extra (split_whitespace_rest words.entry) e) }
{
    words
        .next()
        .map_or(Ok(()), |extra| Err(Misread::ExtraWord(extra)))
}

// The number that a word writes in decimal digits.
pub fn number(word: &str) -> Result<u16, NumberFault<'_>>
    ensures { MatchResult result (λ n. Decimal word.now n) (λ e. NotNumber word.now e) }
{
    word.parse::<u16>().map_err(|fault| match fault.kind() {
        IntErrorKind::PosOverflow => NumberFault::TooLarge(word),
        _ => NumberFault::NotDecimal(word),
    })
}

// The number that the next word writes.
pub fn next_number<'a>(words: &mut SplitWhitespace<'a>) -> Result<u16, NumberFault<'a>>
    ensures { MatchResult result (λ n. NextNumber (split_whitespace_rest words.old) n (split_whitespace_rest words.new)) (λ e. NoNumber (split_whitespace_rest words.old) e) }
{
    words.next().ok_or(NumberFault::Missing).and_then(number)
}

// The one number, with no word behind it.
pub fn one_number<'a>(mut words: SplitWhitespace<'a>) -> Result<u16, Misread<'a>>
    ensures { MatchResult result (λ n. OneNumber (split_whitespace_rest words.entry) n) (λ e. Miscounts (split_whitespace_rest words.entry) e) }
{
    let number = next_number(&mut words)?;
    end(words)?;
    Ok(number)
}

// The octets that the words write, first to last.
pub fn octets<'a>(heap: Global, words: SplitWhitespace<'a>) -> Result<Vec<u8>, Misread<'a>>
    ensures { MatchResult result (λ v. Writes (split_whitespace_rest words.entry) v.items) (λ e. Spoils (split_whitespace_rest words.entry) e) }
{
    let mut octets = Vec::new(heap);
    for word in words {
        octets.push(octet(word).ok_or(Misread::BadOctet(word))?)?;
    }
    Ok(octets)
}
