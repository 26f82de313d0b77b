// How orders are read from a line of text.
ghost use Rattle.std.specs.Prelude.{◌≡◌, ◌<◌, MatchOption, MatchResult};
ghost use Rattle.std.specs.Str.Iter.{split_whitespace_rest};
ghost use Rattle.commands.specs.Texts.{Decimal, NextNumber, NoneOf};
ghost use Rattle.desk.specs.Texts.{Alone, Behind, NoKind, NotAlone, NotKind, NotTwo, NotWritten, Reading, TwoNumbers, Wrong, names, word_of};

use crate::hearings::Call;
use crate::misread::DeskMisread;
use crate::order::{DeskOrder, Name};
use commands::misread::{Misread, NumberFault};
use commands::words::{end, next_number, number, octets, one_number};
use std::alloc::Global;
use std::str::SplitWhitespace;

// The order that a line of text says; none where its first word begins no order of the desk's.
// not `FromStr`, which gets no memory
pub fn read(heap: Global, text: &str) -> Option<Result<DeskOrder, DeskMisread<'_>>>
    ensures { Reading text.now result }
{
    let mut words = text.split_whitespace();
    let name = name_of(words.next()?)?;
    Some(behind(heap, name, words))
}

// The order that a word begins.
fn name_of(word: &str) -> Option<Name>
    ensures { MatchOption result (NoneOf names word.now) (λ n. word.now ≡ word_of n) }
{
    match word {
        "receiver" => Some(Name::Receiver),
        "gap" => Some(Name::Gap),
        "showmarks" => Some(Name::ShowMarks),
        "showframe" => Some(Name::ShowFrame),
        "look" => Some(Name::Look),
        "release" => Some(Name::Release),
        "state" => Some(Name::State),
        "ft12" => Some(Name::Ft12),
        "markbuffer" => Some(Name::MarkBuffer),
        "framebuffer" => Some(Name::FrameBuffer),
        "listen" => Some(Name::Listen),
        "ft2" => Some(Name::Ft2),
        "write" => Some(Name::Write),
        _ => None,
    }
}

// The order with what stands behind its name.
fn behind<'a>(
    heap: Global,
    name: Name,
    words: SplitWhitespace<'a>,
) -> Result<DeskOrder, DeskMisread<'a>>
    ensures { MatchResult result (λ o. Behind name (split_whitespace_rest words.entry) o) (λ e. Wrong name (split_whitespace_rest words.entry) e) }
{
    match name {
        Name::Receiver => alone(words, DeskOrder::Call(Call::New)),
        Name::Gap => alone(words, DeskOrder::Call(Call::Gap)),
        Name::ShowMarks => alone(words, DeskOrder::ShowMarks),
        Name::ShowFrame => alone(words, DeskOrder::ShowFrame),
        Name::Look => alone(words, DeskOrder::Call(Call::Look)),
        Name::Release => alone(words, DeskOrder::Call(Call::Release)),
        Name::State => alone(words, DeskOrder::Call(Call::State)),
        Name::Ft12 => Ok(DeskOrder::Ft12(one_number(words)?)),
        Name::MarkBuffer => Ok(DeskOrder::MarkBuffer(one_number(words)?)),
        Name::FrameBuffer => Ok(DeskOrder::FrameBuffer(one_number(words)?)),
        Name::Listen => Ok(DeskOrder::Call(Call::Listen(one_number(words)?))),
        Name::Ft2 => {
            let (fixed_length, header_length) = two_numbers(words)?;
            Ok(DeskOrder::Ft2(fixed_length, header_length))
        }
        Name::Write => write(heap, words),
    }
}

// The order, where no word is left.
fn alone<'a>(words: SplitWhitespace<'a>, order: DeskOrder) -> Result<DeskOrder, DeskMisread<'a>>
    ensures { MatchResult result (λ o. Alone order (split_whitespace_rest words.entry) o) (λ e. NotAlone (split_whitespace_rest words.entry) e) }
{
    end(words)?;
    Ok(order)
}

// Two numbers, with no word behind them.
fn two_numbers<'a>(mut words: SplitWhitespace<'a>) -> Result<(u16, u16), Misread<'a>>
    ensures { MatchResult result (λ p. TwoNumbers (split_whitespace_rest words.entry) p.0 p.1) (λ e. NotTwo (split_whitespace_rest words.entry) e) }
{
    let first = next_number(&mut words)?;
    let second = one_number(words)?;
    Ok((first, second))
}

// The kind that a word writes.
fn kind(word: &str) -> Result<u8, NumberFault<'_>>
    ensures { MatchResult result (λ k. Decimal word.now k × (k < 256)) (λ e. NotKind word.now e) }
{
    u8::try_from(number(word)?).map_err(|_| NumberFault::TooLarge(word))
}

// The kind that the next word writes.
fn next_kind<'a>(words: &mut SplitWhitespace<'a>) -> Result<u8, DeskMisread<'a>>
    ensures { MatchResult result (λ k. NextNumber (split_whitespace_rest words.old) k (split_whitespace_rest words.new) × (k < 256)) (λ e. NoKind (split_whitespace_rest words.old) e) }
{
    let word = words.next().ok_or(NumberFault::Missing);
    word.and_then(kind).map_err(DeskMisread::BadKind)
}

// A kind, and the octets behind it.
fn write<'a>(heap: Global, mut words: SplitWhitespace<'a>) -> Result<DeskOrder, DeskMisread<'a>>
    ensures { MatchResult result (λ o. Behind Name.Write (split_whitespace_rest words.entry) o) (λ e. NotWritten (split_whitespace_rest words.entry) e) }
{
    let kind = next_kind(&mut words)?;
    Ok(DeskOrder::Call(Call::Write(kind, octets(heap, words)?)))
}
