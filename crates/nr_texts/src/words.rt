//! Words, and the numbers and bytes that words spell.

ghost use Rattle.std.specs.Prelude.{◌≡◌, ◌<◌, ◌≤◌, ◌∷◌, ◌^◌, [], length, None, Some, IfOk, MatchOption, IfSome, ◌==◌, if◌then◌else◌, ◌&&◌, nat_lt};
ghost use Rattle.std.specs.List.{list_all, position};
ghost use Rattle.std.specs.Str.{bytes_eq};
ghost use Rattle.nr_texts.specs.Pieces.{texts, parts_left, pair_of};
ghost use Rattle.nr_texts.specs.Words.{parts, is_digit, is_numeral, numeral_value, number_within, number_in, bytes_in, arguments_in, one_number, two_numbers};

use hex::FromHexError;
use nr_xdr::{Memory, Octets};
use std::alloc::Global;

/// The maximum of a number of a text, if it isn't said otherwise.
pub const NUMBER_MAX: u32 = 4_294_967_295;

/// Whether a word is this name.
pub fn is(word: &[u8], name: &[u8]) -> bool
    ensures { result ≡ bytes_eq word.now name.now }
{
    word == name
}

/// The index of the first such character in a text.
fn place_of(character: u8, text: &[u8]) -> Option<usize>
    ensures { result ≡ position (λ c. c == character) text.now }
{
    text.iter().position(|c| *c == character)
}

/// The part of a text before a character, and the text after it, if there is one.
pub fn cut(character: u8, text: &[u8]) -> (&[u8], Option<&[u8]>)
    ensures parts { parts character text.now ≡ result.0.now ∷ parts_left character result.1 }
    ensures shorter { IfSome result.1 (λ rest. length rest.now < length text.now) }
{
    let Some(at) = place_of(character, text) else {
        return (text, None);
    };
    let (part, rest) = text.split_at(at);
    let (_, rest) = rest.split_at(1);
    (part, Some(rest))
}

/// The two parts of a text that has the character once; else there are none.
pub fn two_parts(character: u8, text: &[u8]) -> Option<(&[u8], &[u8])>
    ensures { MatchOption result (pair_of (parts character text.now) ≡ None) (λ p. parts character text.now ≡ p.0.now ∷ p.1.now ∷ []) }
{
    let (first, rest) = cut(character, text);
    let (second, more) = cut(character, rest?);
    match more {
        None => Some((first, second)),
        Some(_) => None,
    }
}

/// The words of a line, which are separated by one space each. A line without a space is one word.
///
/// # Errors
///
/// [`Memory`] if memory ran out.
pub fn words_of(alloc: Global, line: &[u8]) -> Result<Vec<&[u8]>, Memory>
    ensures { IfOk result (λ words. texts words.items ≡ parts 32 line.now) }
{
    let mut words = Vec::new(alloc);
    let mut rest = Some(line);
    while let Some(text) = rest {
        let (word, more) = cut(b' ', text);
        words.push(word)?;
        rest = more;
    }
    Ok(words)
}

fn are_digits(word: &[u8]) -> bool
    ensures { result ≡ list_all is_digit word.now }
{
    word.iter().all(|c| b'0' <= *c && *c <= b'9')
}

/// Decimal digits without a sign and without a leading zero.
fn is_numeral(word: &[u8]) -> bool
    ensures { result ≡ is_numeral word.now }
{
    match word {
        [] => false,
        [_] => are_digits(word),
        [first, ..] => *first != b'0' && are_digits(word),
    }
}

/// The number of a numeral, if it is one of 64 bits.
fn numeral(word: &[u8]) -> Option<u64>
    ensures { result ≡ (if is_numeral word.now && nat_lt (numeral_value word.now) (2 ^ 64) then Some (numeral_value word.now) else None) }
{
    if !is_numeral(word) {
        return None;
    }
    match str::from_utf8(word) {
        Ok(text) => text.parse().ok(),
        Err(_) => None,
    }
}

/// The number that a word spells in decimal digits, without a sign and without leading zeros, if it is one from `low` to
/// `high`.
#[tactic(auto, unfolding(crate::specs::Words::number_within))]
pub fn number_within(low: u64, high: u64, word: &[u8]) -> Option<u64>
    ensures is { result ≡ number_within low high word.now }
    ensures within { IfSome result (λ value. (low ≤ value) × (value ≤ high)) }
{
    let value = numeral(word)?;
    if low <= value && value <= high {
        Some(value)
    } else {
        None
    }
}

/// The number of 32 bits that a word spells as of [`number_within`].
pub fn number_in(word: &[u8]) -> Option<u32>
    ensures { result ≡ number_in word.now }
{
    match number_within(0, u64::from(NUMBER_MAX), word) {
        Some(value) => Some(value as u32),
        None => None,
    }
}

/// One byte or more, in hexadecimal digits of either case.
///
/// # Errors
///
/// [`Memory`] if memory ran out.
#[tactic(auto, unfolding(crate::specs::Words::bytes_in))]
pub fn bytes_in(alloc: Global, word: &[u8]) -> Result<Option<Octets>, Memory>
    ensures { IfOk result (λ bytes. bytes ≡ bytes_in word.now) }
{
    if word.is_empty() {
        return Ok(None);
    }
    match hex::decode(alloc, word) {
        Ok(bytes) => Ok(Some(Octets::from_vec(bytes))),
        Err(FromHexError::OutOfMemory) => Err(Memory),
        Err(_) => Ok(None),
    }
}

/// The same, or `-` for no bytes.
///
/// # Errors
///
/// [`Memory`] if memory ran out.
#[tactic(auto, unfolding(crate::specs::Words::arguments_in))]
pub fn arguments_in(alloc: Global, word: &[u8]) -> Result<Option<Octets>, Memory>
    ensures { IfOk result (λ bytes. bytes ≡ arguments_in word.now) }
{
    if is(word, b"-") {
        Ok(Some(Octets::new(alloc)))
    } else {
        bytes_in(alloc, word)
    }
}

/// Two numbers of 32 bits, and nothing else.
pub fn two_numbers(words: &[&[u8]]) -> Option<(u32, u32)>
    ensures { result ≡ two_numbers (texts words.now) }
{
    match words {
        [first, second] => {
            let first = number_in(first)?;
            let second = number_in(second)?;
            Some((first, second))
        }
        _ => None,
    }
}

/// One number of 32 bits, and nothing else.
pub fn one_number(words: &[&[u8]]) -> Option<u32>
    ensures { result ≡ one_number (texts words.now) }
{
    match words {
        [word] => number_in(word),
        _ => None,
    }
}
