//! Whether pieces stand in a text or in octets: X.711, CMISFilter.

ghost use Rattle.std.specs.Prelude.{◌≡◌, ◌↔◌, ◌≤◌, IfOk, IsErr, IsTrue, false, length};
ghost use Rattle.term_values.specs.Typed.{listed};
ghost use Rattle.term_values.specs.Typed.TypedValue.{Text, Octets};
ghost use Rattle.value_match.specs.FirstEnd.{IsFirstEnd, IsFirstEndOf};
ghost use Rattle.term_values.specs.Matching.{Matches};
ghost use Rattle.term_values.specs.MatchingKinds.{can_match};
ghost use Rattle.term_values.specs.MatchingKinds.MatchingRule.{Substrings};
ghost use Rattle.term_values.specs.MatchingPieces.{StandFrom};

use crate::kinds::has_pieces;
use crate::not_matched::NotMatched;
use memchr::memmem;
use term_values::{Rules, Syntax, Value, ValueForm};

/// The kinds of pieces, as alternatives of the asserted items: X.711, CMISFilter, substrings.
const INITIAL: u32 = 0;

const ANY: u32 = 1;

const FINAL: u32 = 2;

/// Where the piece ends that stands in the text at `from` or behind it, as near to the front as it can.
fn end_of_piece(kind: u32, piece: &[u8], text: &[u8], from: usize) -> Option<usize>
    requires { from ≤ length text.now }
    ensures { IsFirstEnd kind piece.now text.now from result }
{
    match kind {
        INITIAL => {
            if from > 0 {
                None
            } else if text.starts_with(piece) {
                Some(piece.len())
            } else {
                None
            }
        }
        ANY => match memmem::find(&text[from..], piece) {
            Some(at) => Some(from + at + piece.len()),
            None => None,
        },
        FINAL => {
            if text[from..].ends_with(piece) {
                Some(text.len())
            } else {
                None
            }
        }
        _ => None,
    }
}

/// The same of a value, where it is a piece of a text.
fn end_of_text(value: &Value, text: &[u8], from: usize) -> Option<usize>
    requires { from ≤ length text.now }
    ensures { IsFirstEndOf Text value.now text.now from result }
{
    match &value.form {
        ValueForm::Pick(kind, picked) => match &picked.form {
            ValueForm::Text(piece) => end_of_piece(*kind, piece.as_slice(), text, from),
            _ => None,
        },
        _ => None,
    }
}

/// The same of a value, where it is a piece of octets.
fn end_of_octets(value: &Value, octets: &[u8], from: usize) -> Option<usize>
    requires { from ≤ length octets.now }
    ensures { IsFirstEndOf Octets value.now octets.now from result }
{
    match &value.form {
        ValueForm::Pick(kind, picked) => match &picked.form {
            ValueForm::Octets(piece) => end_of_piece(*kind, piece.as_slice(), octets, from),
            _ => None,
        },
        _ => None,
    }
}

/// Whether pieces of a text stand in it.
fn stand_in_text(pieces: &[Value], text: &[u8]) -> bool
    ensures { IsTrue result ↔ StandFrom Text text.now 0 (listed pieces.now) }
{
    let mut from = 0;
    for piece in pieces {
        match end_of_text(piece, text, from) {
            Some(end) => from = end,
            None => return false,
        }
    }
    true
}

/// Whether pieces of octets stand in them.
fn stand_in_octets(pieces: &[Value], octets: &[u8]) -> bool
    ensures { IsTrue result ↔ StandFrom Octets octets.now 0 (listed pieces.now) }
{
    let mut from = 0;
    for piece in pieces {
        match end_of_octets(piece, octets, from) {
            Some(end) => from = end,
            None => return false,
        }
    }
    true
}

/// Whether the asserted pieces stand in the held value.
fn stand_in(asserted: &Value, held: &Value) -> bool
    ensures { IsTrue result ↔ Matches Substrings asserted.now held.now }
{
    match (&asserted.form, &held.form) {
        (ValueForm::Many(pieces), ValueForm::Text(text)) => {
            stand_in_text(pieces.items.as_slice(), text.as_slice())
        }
        (ValueForm::Many(pieces), ValueForm::Octets(octets)) => {
            stand_in_octets(pieces.items.as_slice(), octets.as_slice())
        }
        _ => false,
    }
}

/// SUBSTRINGS: whether the asserted pieces stand in the held text or octets, in their order and without overlap. The
/// asserted value is a `Many` of `Pick`: 0 is an initial piece, which begins the held value, 1 any other one, and 2 a
/// final one, which ends it. Takes time linear in both.
pub fn contains_text(
    syntax: &Syntax,
    rules: &Rules,
    asserted: &Value,
    held: &Value,
) -> Result<bool, NotMatched>
    // the answer
    ensures matched { IfOk result (λ holds. IsTrue holds ↔ Matches Substrings asserted.now held.now) }
    // refused where the attribute lacks the rule, or its values have no pieces
    ensures refused { IsErr result ↔ (can_match Substrings rules.now syntax.now ≡ false) }
{
    if rules.substrings && has_pieces(syntax) {
        Ok(stand_in(asserted, held))
    } else {
        Err(NotMatched)
    }
}
