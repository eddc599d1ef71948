//! Readers of single tokens and of keywords in a row (X.722, section 8.2). Each answers the place behind
//! what it read, or the one place of the fault. A place past the end of the tokens has no token.

ghost use Rattle.std.specs.Prelude.{◌≡◌, ◌+◌, ℕ, Bool, List, [], ◌∷◌, true, false, Some, None, slice_get, map};
ghost use Rattle.std.specs.Prelude.{MatchOption, IfOk};
ghost use Rattle.std.specs.List.{list_any};
ghost use Rattle.token_grammar.specs.declared.token.Token.{Token};
ghost use Rattle.token_grammar.specs.Form.{Form, Marks, Keep, Bare, Leaf};
ghost use Rattle.token_grammar.specs.Spelling.{passes};
ghost use Rattle.token_grammar.specs.Outcome.{Reads, Skips, closed};
ghost use Rattle.token_grammar.specs.TokenTests.{is_word_of, is_sign_of, is_label, is_name, is_word, is_number};
ghost use Rattle.token_grammar.specs.TokenTests.{is_string};

use super::syntax_refusal::SyntaxRefusal;
use super::token::Token;
use super::token_tests::{
    is_any_word_at, is_label_at, is_name_at, is_number_at, is_one_of_at, is_sign_at, is_sign_of,
    is_string_at, is_word_at, token_at,
};
use std::alloc::{AllocError, Global};

/// A copy of a token; only memory can fail.
pub fn copy_token(alloc: Global, token: &Token) -> Result<Token, AllocError>
    ensures { IfOk result (λ copy. copy ≡ token.now) }
{
    Ok(Token {
        kind: token.kind,
        at: token.at,
        text: token.text.copy(alloc)?,
    })
}

/// Goes past the token at a place if it is the one that is wanted.
fn skip_token(tokens: &[Token], at: usize, is_wanted: bool) -> Result<usize, SyntaxRefusal>
    ensures { (grammar : ℕ → Form) (test : Token → Bool) → is_wanted ≡ passes test (slice_get tokens.now at) →
        Skips tokens.now grammar closed (Marks (test ∷ [])) at Bare result }
{
    if is_wanted {
        if let Some((_token, next)) = token_at(tokens, at) {
            return Ok(next);
        }
    }
    Err(SyntaxRefusal::Syntax { token: at as u64 })
}

/// Copies the token at a place if it is the one that is wanted, as its caller has found out: a reader of
/// one token for any test.
pub fn keep_token(
    alloc: Global,
    tokens: &[Token],
    at: usize,
    is_wanted: bool,
) -> Result<(Token, usize), SyntaxRefusal>
    ensures { (grammar : ℕ → Form) (test : Token → Bool) → is_wanted ≡ passes test (slice_get tokens.now at) →
        Reads tokens.now grammar closed (Keep test) at Leaf result }
{
    if is_wanted {
        if let Some((token, next)) = token_at(tokens, at) {
            return Ok((copy_token(alloc, token)?, next));
        }
    }
    Err(SyntaxRefusal::Syntax { token: at as u64 })
}

/// Goes past the word.
pub fn skip_word(tokens: &[Token], at: usize, word: &str) -> Result<usize, SyntaxRefusal>
    ensures { (grammar : ℕ → Form) → Skips tokens.now grammar closed (Marks (is_word_of word.now ∷ [])) at Bare result }
{
    skip_token(tokens, at, is_word_at(tokens, at, word))
}

/// Goes past the sign.
pub fn skip_sign(tokens: &[Token], at: usize, sign: &str) -> Result<usize, SyntaxRefusal>
    ensures { (grammar : ℕ → Form) → Skips tokens.now grammar closed (Marks (is_sign_of sign.now ∷ [])) at Bare result }
{
    skip_token(tokens, at, is_sign_at(tokens, at, sign))
}

/// The place behind the sign, where it stands at a place.
pub fn place_behind(tokens: &[Token], at: usize, sign: &str) -> Option<usize>
    ensures { MatchOption result (passes (is_sign_of sign.now) (slice_get tokens.now at) ≡ false)
        (λ next. (passes (is_sign_of sign.now) (slice_get tokens.now at) ≡ true) × (next ≡ at + 1)) }
{
    if let Some((token, next)) = token_at(tokens, at) {
        if is_sign_of(token, sign) {
            return Some(next);
        }
    }
    None
}

/// Goes past the words, which stand in a row.
pub fn skip_words(tokens: &[Token], at: usize, words: &[&str]) -> Result<usize, SyntaxRefusal>
    ensures { (grammar : ℕ → Form)
        → Skips tokens.now grammar closed (Marks (map (λ word. is_word_of word.now) words.now)) at Bare result }
{
    let mut next = at;
    for word in words {
        next = skip_word(tokens, next, word)?;
    }
    Ok(next)
}

/// Reads one of the words, and keeps it.
pub fn read_one_of(
    alloc: Global,
    tokens: &[Token],
    at: usize,
    words: &[&str],
) -> Result<(Token, usize), SyntaxRefusal>
    ensures { (grammar : ℕ → Form)
        → Reads tokens.now grammar closed (Keep (λ token. list_any (λ word. is_word_of word.now token) words.now)) at
        Leaf result }
{
    keep_token(alloc, tokens, at, is_one_of_at(tokens, at, words))
}

/// Reads a label.
pub fn read_label(
    alloc: Global,
    tokens: &[Token],
    at: usize,
) -> Result<(Token, usize), SyntaxRefusal>
    ensures { (grammar : ℕ → Form) → Reads tokens.now grammar closed (Keep is_label) at Leaf result }
{
    keep_token(alloc, tokens, at, is_label_at(tokens, at))
}

/// Reads a name of a module, a type, a value, a component or a number.
pub fn read_name(
    alloc: Global,
    tokens: &[Token],
    at: usize,
) -> Result<(Token, usize), SyntaxRefusal>
    ensures { (grammar : ℕ → Form) → Reads tokens.now grammar closed (Keep is_name) at Leaf result }
{
    keep_token(alloc, tokens, at, is_name_at(tokens, at))
}

/// Reads any word.
pub fn read_any_word(
    alloc: Global,
    tokens: &[Token],
    at: usize,
) -> Result<(Token, usize), SyntaxRefusal>
    ensures { (grammar : ℕ → Form) → Reads tokens.now grammar closed (Keep is_word) at Leaf result }
{
    keep_token(alloc, tokens, at, is_any_word_at(tokens, at))
}

/// Reads a number.
pub fn read_number(
    alloc: Global,
    tokens: &[Token],
    at: usize,
) -> Result<(Token, usize), SyntaxRefusal>
    ensures { (grammar : ℕ → Form) → Reads tokens.now grammar closed (Keep is_number) at Leaf result }
{
    keep_token(alloc, tokens, at, is_number_at(tokens, at))
}

/// Reads a string.
pub fn read_string(
    alloc: Global,
    tokens: &[Token],
    at: usize,
) -> Result<(Token, usize), SyntaxRefusal>
    ensures { (grammar : ℕ → Form) → Reads tokens.now grammar closed (Keep is_string) at Leaf result }
{
    keep_token(alloc, tokens, at, is_string_at(tokens, at))
}

/// Reads the sign, and keeps it.
pub fn read_sign(
    alloc: Global,
    tokens: &[Token],
    at: usize,
    sign: &str,
) -> Result<(Token, usize), SyntaxRefusal>
    ensures { (grammar : ℕ → Form) → Reads tokens.now grammar closed (Keep (is_sign_of sign.now)) at Leaf result }
{
    keep_token(alloc, tokens, at, is_sign_at(tokens, at, sign))
}
