//! Where comments, words, strings and runs of digits end: X.722, section 8.2; X.680, section 12.

ghost use Rattle.std.specs.Prelude.{◌≡◌, ℕ, ◌+◌, ◌<◌, ◌≤◌, ◌↔◌, length, slice_index, IfSome, MatchOption, IsTrue};
ghost use Rattle.text_lex.specs.Comments.{AreHyphens, CommentRest};
ghost use Rattle.text_lex.specs.Lexemes.{WordRest, StringRest, IsRun, IsSign};

use super::lexing_octets::{
    COLON, EQUALS_SIGN, FULL_STOP, HYPHEN, LINE_FEED, is_one_of, is_word_octet, octet_at,
};

/// Whether two hyphens stand at a place.
pub fn are_hyphens(text: &[u8], at: usize) -> bool
    requires { at < length text.now }
    ensures { IsTrue result ↔ AreHyphens text.now at }
{
    (text[at] == HYPHEN) & (octet_at(text, at + 1) == HYPHEN)
}

/// The end of a comment; `start` is the place behind the two hyphens that begin it.
pub fn comment_end(text: &[u8], start: usize) -> usize
    requires { start ≤ length text.now }
    ensures comment { CommentRest text.now start result }
    ensures forward { start ≤ result }
    ensures within { result ≤ length text.now }
{
    let mut at = start;
    while at < text.len() {
        if text[at] == LINE_FEED {
            return at;
        }
        if are_hyphens(text, at) {
            return at + 2;
        }
        at += 1;
    }
    at
}

/// The end of the longest word; `start` is the place behind its first letter.
pub fn word_end(text: &[u8], start: usize) -> usize
    requires { start ≤ length text.now }
    ensures word { WordRest text.now start result }
    ensures longest { (k : ℕ) → WordRest text.now start k → k ≤ result }
    ensures forward { start ≤ result }
    ensures within { result ≤ length text.now }
{
    let mut at = start;
    while at < text.len() {
        if is_word_octet(text[at]) {
            at += 1;
        } else if (text[at] == HYPHEN) & is_word_octet(octet_at(text, at + 1)) {
            at += 2;
        } else {
            return at;
        }
    }
    at
}

/// The end of a string, behind its last delimiter; `start` is the place behind its first one.
pub fn string_end(text: &[u8], start: usize, delimiter: u8) -> Option<usize>
    ensures cases { MatchOption result
        ((k : ℕ) → StringRest text.now delimiter start k → ⊥)
        (StringRest text.now delimiter start) }
    ensures forward { IfSome result (λ end. start < end) }
    ensures within { IfSome result (λ end. end ≤ length text.now) }
{
    let mut at = start;
    while at < text.len() {
        if text[at] != delimiter {
            at += 1;
        } else if octet_at(text, at + 1) == delimiter {
            at += 2;
        } else {
            return Some(at + 1);
        }
    }
    None
}

/// The end of the octets from `start` on that are each one of `octets`.
pub fn run_end(text: &[u8], start: usize, octets: &[u8]) -> usize
    requires { start ≤ length text.now }
    ensures run { IsRun octets.now text.now start result }
    ensures within { result ≤ length text.now }
{
    let mut at = start;
    while at < text.len() {
        if !is_one_of(octets, text[at]) {
            return at;
        }
        at += 1;
    }
    at
}

/// The end of the longest sign at a place.
pub fn sign_end(text: &[u8], at: usize) -> usize
    requires { at < length text.now }
    ensures sign { IsSign text.now at result }
    ensures longest { (k : ℕ) → IsSign text.now at k → k ≤ result }
    ensures forward { at < result }
    ensures within { result ≤ length text.now }
{
    let next = octet_at(text, at + 1);
    if (text[at] == COLON) & (next == COLON) & (octet_at(text, at + 2) == EQUALS_SIGN) {
        at + 3
    } else if (text[at] == FULL_STOP) & (next == FULL_STOP) {
        at + 2
    } else {
        at + 1
    }
}
