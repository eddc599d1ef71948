//! What stands at a place of a document: white space, a comment, a token or a fault.

ghost use Rattle.std.specs.Prelude.{◌<◌, length};
ghost use Rattle.text_lex.specs.Pieces.{IsPiece, IsPieceFrom};

use super::lex_refusal::LexKind;
use super::lexing_ends::{are_hyphens, comment_end, run_end, sign_end, string_end, word_end};
use super::lexing_octets::{
    APOSTROPHE, BIT_SUFFIX, BITS, DIGITS, HEX_DIGITS, HEX_SUFFIX, Start, octet_at, start_of,
};
use super::numerals::decimal;
use token_grammar::token::{BIT_STRING, HEX_STRING, NUMBER, SIGN, STRING, WORD};

/// What stands at a place, up to `end`.
pub enum Piece {
    /// White space or a comment.
    Gap { end: usize },
    /// A token.
    Lexeme { kind: u8, end: usize },
    /// Nothing with which the document goes on.
    Wrong { kind: LexKind },
}

/// What stands at a place; `announced` says that words before it announce a string.
pub fn piece_at(text: &[u8], at: usize, announced: bool) -> Piece
    requires { at < length text.now }
    ensures { IsPiece text.now announced at result }
{
    if are_hyphens(text, at) {
        return Piece::Gap {
            end: comment_end(text, at + 2),
        };
    }
    match start_of(announced, text[at]) {
        Start::Blank => Piece::Gap { end: at + 1 },
        Start::Delimiter => string_at(text, at),
        Start::Letter => Piece::Lexeme {
            kind: WORD,
            end: word_end(text, at + 1),
        },
        Start::Digit => number_at(text, at),
        Start::Apostrophe => bits_at(text, at),
        Start::Sign => Piece::Lexeme {
            kind: SIGN,
            end: sign_end(text, at),
        },
        Start::Nothing => Piece::Wrong {
            kind: LexKind::BadByte,
        },
    }
}

/// The string that a delimiter opens.
fn string_at(text: &[u8], at: usize) -> Piece
    requires { at < length text.now }
    ensures { IsPieceFrom Start.Delimiter text.now at result }
{
    match string_end(text, at + 1, text[at]) {
        Some(end) => Piece::Lexeme { kind: STRING, end },
        None => Piece::Wrong {
            kind: LexKind::OpenString,
        },
    }
}

/// The number that a digit begins.
fn number_at(text: &[u8], at: usize) -> Piece
    requires { at < length text.now }
    ensures { IsPieceFrom Start.Digit text.now at result }
{
    let end = run_end(text, at, DIGITS);
    match decimal(&text[at..end]) {
        Some(_number) => Piece::Lexeme { kind: NUMBER, end },
        None => Piece::Wrong {
            kind: LexKind::BadNumber,
        },
    }
}

/// The hexadecimal or binary string that an apostrophe begins.
fn bits_at(text: &[u8], at: usize) -> Piece
    requires { at < length text.now }
    ensures { IsPieceFrom Start.Apostrophe text.now at result }
{
    let end = run_end(text, at + 1, HEX_DIGITS);
    if (octet_at(text, end) == APOSTROPHE) & (octet_at(text, end + 1) == HEX_SUFFIX) {
        return Piece::Lexeme {
            kind: HEX_STRING,
            end: end + 2,
        };
    }
    let end = run_end(text, at + 1, BITS);
    if (octet_at(text, end) == APOSTROPHE) & (octet_at(text, end + 1) == BIT_SUFFIX) {
        return Piece::Lexeme {
            kind: BIT_STRING,
            end: end + 2,
        };
    }
    Piece::Wrong {
        kind: LexKind::BadBits,
    }
}
