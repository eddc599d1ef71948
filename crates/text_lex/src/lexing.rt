//! The tokens of a document: X.722, section 8.2; X.680, section 12.

ghost use Rattle.std.specs.Prelude.{◌≡◌, reverse, IfOk, IfErr, All, AllPairs};
ghost use Rattle.text_lex.specs.Lexed.{is_word, announces, AreTokensOf, IsRefused};
ghost use Rattle.text_lex.specs.Slices.{IsSlice, EndsBefore};

use super::lex_refusal::LexRefusal;
use super::lexing_pieces::{Piece, piece_at};
use std::alloc::Global;
use token_grammar::token::WORD;
use token_grammar::{Bytes, Token};

const DESCRIPTION: &[u8] = b"DESCRIPTION";

const DEFINED: &[u8] = b"DEFINED";

const AS: &[u8] = b"AS";

const PRESENT: &[u8] = b"PRESENT";

const IF: &[u8] = b"IF";

/// Whether a token is a word of these octets.
#[tactic(auto, unfolding(crate::specs::Lexed::is_word))]
fn is_word(token: &Token, word: &[u8]) -> bool
    ensures { result ≡ is_word token.now word.now }
{
    (token.kind == WORD) & (token.text.as_slice() == word)
}

/// Whether the last tokens announce a string: DESCRIPTION, DEFINED AS or PRESENT IF.
#[tactic(auto, unfolding(crate::specs::Lexed::announces))]
fn announce_string(tokens: &[Token]) -> bool
    ensures { result ≡ announces (reverse tokens.now) }
{
    let Some((last, before)) = tokens.split_last() else {
        return false;
    };
    if is_word(last, DESCRIPTION) {
        return true;
    }
    let Some((previous, _)) = before.split_last() else {
        return false;
    };
    (is_word(previous, DEFINED) & is_word(last, AS))
        | (is_word(previous, PRESENT) & is_word(last, IF))
}

/// Cuts a document into its tokens, in order; white space and comments between them are left out.
/// The octets are read once.
///
/// A fault's place is the first octet of what is in hand there, counted from 0: a string without
/// its end, a number past 64 bits, a `'..'H` or `'..'B` that is none, or an octet that begins no
/// token. `Memory` says that there was no room for the tokens.
pub fn lex(alloc: Global, bytes: &[u8]) -> Result<Vec<Token>, LexRefusal>
    ensures tokens { IfOk result (λ tokens. AreTokensOf bytes.now tokens.items) }
    ensures slices { IfOk result (λ tokens. All (IsSlice bytes.now) tokens.items) }
    ensures rising { IfOk result (λ tokens. AllPairs EndsBefore tokens.items) }

    // A fault comes exactly where no tokens make up the document, and is the first.
    ensures refused { IfErr result (IsRefused bytes.now) }
{
    let mut tokens = Vec::new(alloc);
    let mut announced = false;
    let mut at = 0usize;
    while at < bytes.len() {
        match piece_at(bytes, at, announced) {
            Piece::Gap { end } => at = end,
            Piece::Lexeme { kind, end } => {
                let text = Bytes::from_slice(alloc, &bytes[at..end])?;
                tokens.push(Token {
                    kind,
                    at: at as u64,
                    text,
                })?;
                announced = announce_string(tokens.as_slice());
                at = end;
            }
            Piece::Wrong { kind } => {
                let place = at as u64;
                return Err(LexRefusal::Fault { at: place, kind });
            }
        }
    }
    Ok(tokens)
}
