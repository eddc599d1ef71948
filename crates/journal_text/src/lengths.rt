//! How many octets the line of an entry has, told without writing it: docs/PROFILE.md, section 5.

ghost use Rattle.std.specs.Prelude.{◌≡◌, ◌<◌, ◌≤◌, ◌^◌, ◌+◌, ℕ, IfOk, List, codes, decimal, length};
ghost use Rattle.hex.specs.Hex.{encode_upper};
ghost use Rattle.term_model.specs.LineTexts.{one_word, two_words};
ghost use Rattle.agent_model.specs.Texts.{cause_text, line};
ghost use Rattle.agent_model.specs.declared.entry.Entry.TheVariants as Entry;

use crate::log_names::log_name;
use agent_model::{Entry, Why};
use itoa::Buffer;
use std::alloc::{AllocError, Global};
use term_model::Name;

/// How many decimal digits a number has.
fn digits_length(number: u64) -> u128
    ensures length { result ≡ length (decimal number) }
    ensures few { result ≤ 20 }
{
    let mut buffer = Buffer::new();
    buffer.format(number).len() as u128
}

/// How long octets are in hexadecimal digits.
fn hex_length(octets: &[u8]) -> u128
    ensures length { result ≡ length (encode_upper octets.now) }
    ensures few { result < 2 ^ 65 }
{
    octets.len() as u128 * 2
}

/// How long the cause of a close is.
fn cause_length(cause: &Why) -> u128
    ensures length { result ≡ length (cause_text cause.now) }
    ensures few { result ≤ 64 }
{
    match cause {
        Why::End => 3,
        Why::BadFrame(at) => 9 + digits_length(*at),
        Why::ReadFault => 9,
        Why::WriteFault => 10,
        Why::JournalFull => 11,
        Why::Memory => 6,
    }
}

/// How long a line of a word, a number and a text of this length is.
fn two_words_length(word: &[u8], number: u64, second: u128) -> u128
    requires short { length word.now ≤ 16 }
    requires few { second < 2 ^ 65 }
    ensures length { (text : List ℕ) → second ≡ length text → result ≡ length (two_words word.now number text) }
    ensures few { result ≤ second + 64 }
{
    word.len() as u128 + digits_length(number) + 2 + second
}

/// How long a line of a word and a number is.
fn one_word_length(word: &[u8], number: u64) -> u128
    requires short { length word.now ≤ 16 }
    ensures length { result ≡ length (one_word word.now number) }
    ensures few { result ≤ 64 }
{
    word.len() as u128 + digits_length(number) + 1
}

/// How long the line of an append to a log is that begins.
fn begun_length(alloc: Global, number: u64, log: &Name) -> Result<u128, AllocError>
    ensures length { IfOk result (λ count. count ≡ length (line (Entry.Begun number log.now))) }
    ensures few { IfOk result (λ count. count < 2 ^ 66) }
{
    let octets = log_name(alloc, log.parts.as_slice())?;
    Ok(two_words_length(b"begun ", number, hex_length(octets.as_slice())))
}

/// How many octets the line of an entry has, its line feed counted. Writes nothing. Only where the line tells the name
/// of a log it takes memory, for the name; the refusal is that there is none.
pub fn line_length(alloc: Global, entry: &Entry) -> Result<u128, AllocError>
    ensures length { IfOk result (λ count. count ≡ length (line entry.now)) }
    ensures few { IfOk result (λ count. count < 2 ^ 66) }
{
    let count = match entry {
        Entry::Opened(number, bind) => {
            two_words_length(b"opened ", *number, hex_length(bind.as_slice()))
        }
        Entry::Arrived(number, apdu) => {
            two_words_length(b"arrived ", *number, hex_length(apdu.as_slice()))
        }
        Entry::Begun(number, log) => begun_length(alloc, *number, log)?,
        Entry::Granted(number, moment) => {
            two_words_length(b"granted ", *number, digits_length(*moment))
        }
        Entry::Committed(number) => one_word_length(b"committed ", *number),
        Entry::Starved(number) => one_word_length(b"starved ", *number),
        Entry::Taken(number, count) => two_words_length(b"taken ", *number, digits_length(*count)),
        Entry::Finished(number) => one_word_length(b"finished ", *number),
        Entry::Closed(number, cause) => two_words_length(b"closed ", *number, cause_length(cause)),
    };
    Ok(count)
}
