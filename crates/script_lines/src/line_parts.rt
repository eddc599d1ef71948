//! The parts of a script's line: numbers, octets, and what stands before a byte and behind it; docs/PROFILE.md,
//! section 5.

ghost use Rattle.std.specs.Prelude.{◌≡◌, ◌<◌, ◌≤◌, ◌↔◌, ℕ, List, Ok, decimal, length, IfNone, IfOk, IfSome, IsTrue};
ghost use Rattle.hex.specs.Hex.{decode_of, encode_upper};
ghost use Rattle.script_lines.specs.LineParts.{AreOctetsIn, IsNumberIn, IsSplit, IsWithout};
ghost use Rattle.script_lines.specs.ScriptText.{most_octets};

use hex::FromHexError;
use itoa::Buffer;
use memchr::memchr;
use std::alloc::{AllocError, Global};
use std::str;
use term_values::Bytes;

/// The most octets of a line.
const MOST_OCTETS: usize = 1_048_576;

/// What stands before the first such byte, and what behind it; none where the text is without it.
pub(crate) fn split_at(text: &[u8], byte: u8) -> Option<(&[u8], &[u8])>
    ensures found { IfSome result (λ parts. IsSplit byte text.now parts.0.now parts.1.now) }
    ensures none { IfNone result (IsWithout byte text.now) }
{
    let at = memchr(byte, text)?;
    Some((&text[..at], &text[at + 1..]))
}

/// Whether a text is the one that a number has.
fn is_text_of(text: &str, number: u64) -> bool
    ensures { IsTrue result ↔ (text.now ≡ decimal number) }
{
    let mut buffer = Buffer::new();
    text == buffer.format(number)
}

/// The number below 2^64 whose one text this is.
fn number_of(text: &str) -> Option<u64>
    ensures { IsNumberIn text.now result }
{
    match text.parse::<u64>() {
        Ok(number) => {
            if is_text_of(text, number) {
                Some(number)
            } else {
                None
            }
        }
        Err(_) => None,
    }
}

/// The number below 2^64 that digits spell, without a sign and without zeros before it.
pub(crate) fn number_in(digits: &[u8]) -> Option<u64>
    ensures { IsNumberIn digits.now result }
{
    match str::from_utf8(digits) {
        Ok(text) => number_of(text),
        Err(_) => None,
    }
}

/// Whether a line may hold so many octets.
fn may_hold(count: usize) -> bool
    ensures { IsTrue result ↔ ((0 < count) × (count ≤ most_octets)) }
{
    0 < count && count <= MOST_OCTETS
}

/// Whether a line may hold these octets and has these digits for them.
fn are_spelt(alloc: Global, octets: &[u8], digits: &[u8]) -> Result<bool, AllocError>
    ensures { IfOk result (λ are. IsTrue are
        ↔ ((digits.now ≡ encode_upper octets.now) × (0 < length octets.now) × (length octets.now ≤ most_octets))) }
{
    if !may_hold(octets.len()) {
        return Ok(false);
    }
    let spelt = hex::encode_upper(alloc, octets)?;
    Ok(digits == spelt.as_bytes())
}

/// The octets that digits spell, in capitals or not.
fn decoded(alloc: Global, digits: &[u8]) -> Result<Option<Vec<u8>>, AllocError>
    ensures found { IfOk result (λ o. IfSome o (λ octets. decode_of digits.now ≡ Ok octets.items)) }
    ensures none { IfOk result (λ o. IfNone o ((octets : List ℕ) → decode_of digits.now ≡ Ok octets → ⊥)) }
{
    match hex::decode(alloc, digits) {
        Ok(octets) => Ok(Some(octets)),
        Err(FromHexError::OutOfMemory) => Err(AllocError),
        Err(_) => Ok(None),
    }
}

/// The octets that digits in capitals spell: 1 to 1,048,576 of them.
pub(crate) fn octets_in(alloc: Global, digits: &[u8]) -> Result<Option<Bytes>, AllocError>
    ensures { IfOk result (AreOctetsIn digits.now) }
{
    match decoded(alloc, digits)? {
        Some(items) => {
            if are_spelt(alloc, items.as_slice(), digits)? {
                Ok(Some(Bytes { items }))
            } else {
                Ok(None)
            }
        }
        None => Ok(None),
    }
}
