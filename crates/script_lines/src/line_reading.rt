//! One line of a script without its line feed; docs/PROFILE.md, section 5.

ghost use Rattle.std.specs.Prelude.{◌≡◌, ◌≢◌, ◌++◌, ◌∷◌, ℕ, List, codes, IfOk, MatchOption};
ghost use Rattle.script_lines.specs.LineParts.{IsLineIn, IsWithout};

use crate::line_parts::{number_in, octets_in, split_at};
use agent_model::ScriptLine;
use std::alloc::{AllocError, Global};

/// What stands before the time of what follows.
const AT: &[u8] = b"at ";

/// What stands before the octets of a BIND.
const OPEN: &[u8] = b"open ";

/// What stands before the association that sends.
const SEND: &[u8] = b"send ";

/// What stands before the association that ends.
const END: &[u8] = b"end ";

/// The byte between an association and the octets that it sends.
const SPACE: u8 = b' ';

/// The line with this time.
fn read_at(digits: &[u8]) -> Option<ScriptLine>
    ensures { IsLineIn (codes "at " ++ digits.now) result }
{
    match number_in(digits) {
        Some(moment) => Some(ScriptLine::At(moment)),
        None => None,
    }
}

/// The line that asks for an association by this BIND.
fn read_open(alloc: Global, digits: &[u8]) -> Result<Option<ScriptLine>, AllocError>
    ensures { IfOk result (IsLineIn (codes "open " ++ digits.now)) }
{
    match octets_in(alloc, digits)? {
        Some(bind) => Ok(Some(ScriptLine::Open(bind))),
        None => Ok(None),
    }
}

/// The line with which this association sends these octets.
fn read_sent(alloc: Global, number: &[u8], digits: &[u8]) -> Result<Option<ScriptLine>, AllocError>
    requires { IsWithout 32 number.now }
    ensures { IfOk result (IsLineIn (codes "send " ++ (number.now ++ (32 ∷ digits.now)))) }
{
    let Some(association) = number_in(number) else {
        return Ok(None);
    };
    match octets_in(alloc, digits)? {
        Some(apdu) => Ok(Some(ScriptLine::Send(association, apdu))),
        None => Ok(None),
    }
}

/// The line with this association, and what it sends behind a space.
fn read_send(alloc: Global, words: &[u8]) -> Result<Option<ScriptLine>, AllocError>
    ensures { IfOk result (IsLineIn (codes "send " ++ words.now)) }
{
    match split_at(words, SPACE) {
        Some((number, digits)) => read_sent(alloc, number, digits),
        None => Ok(None),
    }
}

/// The line with which this association ends.
fn read_end(digits: &[u8]) -> Option<ScriptLine>
    ensures { IsLineIn (codes "end " ++ digits.now) result }
{
    match number_in(digits) {
        Some(number) => Some(ScriptLine::End(number)),
        None => None,
    }
}

/// What stands behind these bytes at the front.
fn behind<'a>(words: &'a [u8], front: &[u8]) -> Option<&'a [u8]>
    ensures { MatchOption result ((rest : List ℕ) → words.now ≢ front.now ++ rest)
        (λ rest. words.now ≡ front.now ++ rest.now) }
{
    words.strip_prefix(front)
}

/// The line that these words are, without its line feed; none where they are no line in the form.
pub(crate) fn read_line(alloc: Global, words: &[u8]) -> Result<Option<ScriptLine>, AllocError>
    ensures { IfOk result (IsLineIn words.now) }
{
    if let Some(octets) = behind(words, OPEN) {
        return read_open(alloc, octets);
    }
    if let Some(sent) = behind(words, SEND) {
        return read_send(alloc, sent);
    }
    if let Some(moment) = behind(words, AT) {
        return Ok(read_at(moment));
    }
    match behind(words, END) {
        Some(number) => Ok(read_end(number)),
        None => Ok(None),
    }
}
