//! A token of a document: its kind, its place and its octets.

ghost use Rattle.std.specs.Prelude.{◌≡◌};
ghost use Rattle.token_grammar.specs.Kinds.{word_kind, number_kind, string_kind, hexadecimal_kind, binary_kind};
ghost use Rattle.token_grammar.specs.Kinds.{sign_kind};

use super::bytes::Bytes;

/// A word, a number, a string or a sign of a document.
#[derive(PartialEq, Eq, Debug, Drop)]
pub struct Token {
    /// Which kind it is: one of [`WORD`], [`NUMBER`], [`STRING`], [`HEX_STRING`], [`BIT_STRING`]
    /// and [`SIGN`].
    pub kind: u8,
    /// The place of its first octet in the document, counted from 0.
    pub at: u64,
    /// The octets that spell it, delimiters among them.
    pub text: Bytes,
}

/// A word: a keyword, a label, or a name of a module, a type or a value.
pub const WORD: u8 = 0;

/// A number in decimal digits.
pub const NUMBER: u8 = 1;

/// A string between two equal delimiters.
pub const STRING: u8 = 2;

/// A hexadecimal string, `'..'H`.
pub const HEX_STRING: u8 = 3;

/// A binary string, `'..'B`.
pub const BIT_STRING: u8 = 4;

/// Any other token: `::=`, `..`, or a sign of one octet.
pub const SIGN: u8 = 5;

/// The constants are the numbers of the kinds. Does nothing.
pub fn kinds_are_numbered()
    ensures word { WORD ≡ word_kind }
    ensures number { NUMBER ≡ number_kind }
    ensures string { STRING ≡ string_kind }
    ensures hexadecimal { HEX_STRING ≡ hexadecimal_kind }
    ensures binary { BIT_STRING ≡ binary_kind }
    ensures sign { SIGN ≡ sign_kind }
{}
