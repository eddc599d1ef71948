//! Tests of single tokens: words, signs, labels and names (X.722, section 8.2; X.680, section 12).

ghost use Rattle.std.specs.Prelude.{◌≡◌, ◌+◌, ◌&&◌, not, ℕ, Some, None, MatchOption, slice_get};
ghost use Rattle.std.specs.List.{list_any};
ghost use Rattle.token_grammar.specs.Spelling.{passes};
ghost use Rattle.token_grammar.specs.TokenTests.{is_word_of, is_sign_of, is_one_of, is_label, is_name, is_word};
ghost use Rattle.token_grammar.specs.TokenTests.{is_number, is_string, is_lower_case, is_arc_start, reserved_words};

use super::token::{NUMBER, SIGN, STRING, Token, WORD};

/// Whether a token is the word.
pub fn is_word_of(token: &Token, word: &str) -> bool
    ensures { result ≡ is_word_of word.now token.now }
{
    token.kind == WORD && token.text.as_slice() == word.as_bytes()
}

/// Whether a token is one of the words.
pub fn is_one_of(token: &Token, words: &[&str]) -> bool
    ensures { result ≡ list_any (λ word. is_word_of word.now token.now) words.now }
{
    words.iter().any(|word| is_word_of(token, word))
}

/// Whether a token is the sign.
pub fn is_sign_of(token: &Token, sign: &str) -> bool
    ensures { result ≡ is_sign_of sign.now token.now }
{
    token.kind == SIGN && token.text.as_slice() == sign.as_bytes()
}

fn is_lower_case(octet: u8) -> bool
    ensures { result ≡ is_lower_case octet }
{
    octet >= b'a' && octet <= b'z'
}

fn has_lower_case(text: &[u8]) -> bool
    ensures { result ≡ list_any is_lower_case text.now }
{
    text.iter().any(|octet| is_lower_case(*octet))
}

/// Whether a token is a label: a word with a lower-case letter.
pub fn is_label(token: &Token) -> bool
    ensures { result ≡ is_label token.now }
{
    token.kind == WORD && has_lower_case(token.text.as_slice())
}

/// Whether a token is a word that ASN.1 has for itself.
fn is_reserved(token: &Token) -> bool
    ensures { result ≡ is_one_of reserved_words token.now }
{
    is_one_of(
        token,
        &[
            "DEFINITIONS",
            "EXPLICIT",
            "IMPLICIT",
            "TAGS",
            "BEGIN",
            "EXPORTS",
            "IMPORTS",
            "FROM",
            "END",
            "BOOLEAN",
            "INTEGER",
            "ENUMERATED",
            "BIT",
            "STRING",
            "OCTET",
            "NULL",
            "OBJECT",
            "IDENTIFIER",
            "IA5String",
            "PrintableString",
            "NumericString",
            "VisibleString",
            "GraphicString",
            "GeneralizedTime",
            "SEQUENCE",
            "SET",
            "OF",
            "CHOICE",
            "ANY",
            "DEFINED",
            "BY",
            "OPTIONAL",
            "DEFAULT",
            "SIZE",
            "TRUE",
            "FALSE",
            "UNIVERSAL",
            "APPLICATION",
            "PRIVATE",
        ],
    )
}

/// Whether a token names a module, a type, a value, a component or a number: a word that ASN.1 leaves
/// free.
pub fn is_name(token: &Token) -> bool
    ensures { result ≡ is_name token.now }
{
    token.kind == WORD && !is_reserved(token)
}

/// The token at a place and the place behind it, where there is one.
pub fn token_at(tokens: &[Token], at: usize) -> Option<(&Token, usize)>
    ensures { MatchOption result (slice_get tokens.now at ≡ None) (λ found. (slice_get tokens.now at ≡ Some found.0.now)
        × (found.1 ≡ at + 1)) }
{
    if at < tokens.len() {
        Some((&tokens[at], at + 1))
    } else {
        None
    }
}

/// Whether the token at a place is there and is the word.
pub fn is_word_at(tokens: &[Token], at: usize, word: &str) -> bool
    ensures { result ≡ passes (is_word_of word.now) (slice_get tokens.now at) }
{
    match tokens.get(at) {
        Some(token) => is_word_of(token, word),
        None => false,
    }
}

/// Whether the token at a place is there and is one of the words.
pub fn is_one_of_at(tokens: &[Token], at: usize, words: &[&str]) -> bool
    ensures { result ≡ passes (λ token. list_any (λ word. is_word_of word.now token) words.now)
        (slice_get tokens.now at) }
{
    match tokens.get(at) {
        Some(token) => is_one_of(token, words),
        None => false,
    }
}

/// Whether the token at a place is there and is the sign.
pub fn is_sign_at(tokens: &[Token], at: usize, sign: &str) -> bool
    ensures { result ≡ passes (is_sign_of sign.now) (slice_get tokens.now at) }
{
    match tokens.get(at) {
        Some(token) => is_sign_of(token, sign),
        None => false,
    }
}

/// Whether the token at a place is there and is a label.
pub fn is_label_at(tokens: &[Token], at: usize) -> bool
    ensures { result ≡ passes is_label (slice_get tokens.now at) }
{
    match tokens.get(at) {
        Some(token) => is_label(token),
        None => false,
    }
}

/// Whether the token at a place is there and is a name that ASN.1 leaves free.
pub fn is_name_at(tokens: &[Token], at: usize) -> bool
    ensures { result ≡ passes is_name (slice_get tokens.now at) }
{
    match tokens.get(at) {
        Some(token) => is_name(token),
        None => false,
    }
}

/// Whether the token at a place is there and is a word.
pub fn is_any_word_at(tokens: &[Token], at: usize) -> bool
    ensures { result ≡ passes is_word (slice_get tokens.now at) }
{
    match tokens.get(at) {
        Some(token) => token.kind == WORD,
        None => false,
    }
}

/// Whether the token at a place is there and is a number.
pub fn is_number_at(tokens: &[Token], at: usize) -> bool
    ensures { result ≡ passes is_number (slice_get tokens.now at) }
{
    match tokens.get(at) {
        Some(token) => token.kind == NUMBER,
        None => false,
    }
}

/// Whether the token at a place is there and is a string.
pub fn is_string_at(tokens: &[Token], at: usize) -> bool
    ensures { result ≡ passes is_string (slice_get tokens.now at) }
{
    match tokens.get(at) {
        Some(token) => token.kind == STRING,
        None => false,
    }
}

/// Whether a label stands at a place and the word behind it: a template of the kind that the word says.
pub fn is_template_at(tokens: &[Token], at: usize, word: &str) -> bool
    ensures { result ≡ (passes is_label (slice_get tokens.now at) && passes (is_word_of word.now)
        (slice_get tokens.now (at + 1))) }
{
    match token_at(tokens, at) {
        Some((token, next)) => is_label(token) && is_word_at(tokens, next, word),
        None => false,
    }
}

/// Whether a name stands at a place and another token than the sign behind it, or none.
pub fn is_name_without(tokens: &[Token], at: usize, sign: &str) -> bool
    ensures { result ≡ (passes is_name (slice_get tokens.now at) && not
        (passes (is_sign_of sign.now) (slice_get tokens.now (at + 1)))) }
{
    match token_at(tokens, at) {
        Some((token, next)) => is_name(token) && !is_sign_at(tokens, next, sign),
        None => false,
    }
}

/// Whether an arc of an object identifier begins at a place.
pub fn is_arc_at(tokens: &[Token], at: usize) -> bool
    ensures { result ≡ passes is_arc_start (slice_get tokens.now at) }
{
    match tokens.get(at) {
        Some(token) => token.kind == NUMBER || is_name(token),
        None => false,
    }
}

/// Whether two words stand in a row at a place.
pub fn is_pair_at(tokens: &[Token], at: usize, first: &str, second: &str) -> bool
    ensures { result ≡ (passes (is_word_of first.now) (slice_get tokens.now at) && passes (is_word_of second.now)
        (slice_get tokens.now (at + 1))) }
{
    match token_at(tokens, at) {
        Some((token, next)) => is_word_of(token, first) && is_word_at(tokens, next, second),
        None => false,
    }
}

/// Whether a label stands at a place and two words in a row behind it.
pub fn is_pair_template_at(tokens: &[Token], at: usize, first: &str, second: &str) -> bool
    ensures { result ≡ (passes is_label (slice_get tokens.now at)
        && (passes (is_word_of first.now) (slice_get tokens.now (at + 1)) && passes (is_word_of second.now)
        (slice_get tokens.now (at + 1 + 1)))) }
{
    match token_at(tokens, at) {
        Some((token, next)) => is_label(token) && is_pair_at(tokens, next, first, second),
        None => false,
    }
}
