//! The context of a parameter: words with at most one point between each two, as `ACTION-INFO` and
//! `Module.Type.field` (X.722, section 8.5). It is not looked up.

ghost use Rattle.std.specs.Prelude.{◌≡◌, ℕ, codes, slice_get};
ghost use Rattle.token_grammar.specs.Form.{Form, Keep, Leaf, Maybe, Many, Empty};
ghost use Rattle.token_grammar.specs.Outcome.{Reads, closed};
ghost use Rattle.token_grammar.specs.Parts.{list_tree, optional_tree};
ghost use Rattle.token_grammar.specs.Spelling.{passes};
ghost use Rattle.token_grammar.specs.TokenTests.{is_sign_of};
ghost use Rattle.gdmo_members.specs.Clauses.{context, context_word, is_context_start};
ghost use Rattle.gdmo_members.specs.Templates.{templates};
ghost use Rattle.gdmo_members.specs.Trees.{context_tree, context_word_tree};

use std::alloc::Global;
use token_grammar::token::WORD;
use token_grammar::token_reading::{read_any_word, read_sign};
use token_grammar::token_tests::{is_sign_at, is_sign_of};
use token_grammar::{SyntaxRefusal, Token};

/// A word of a context behind the first one.
#[derive(Drop)]
pub struct ContextWord {
    /// The point before it, where one stands.
    pub point: Option<Token>,
    /// The word.
    pub word: Token,
}

/// The context of a parameter.
#[derive(Drop)]
pub struct Context {
    /// Its first word.
    pub first: Token,
    /// The words behind it, in order.
    pub others: Vec<ContextWord>,
}

/// Whether a further word of a context begins at a place.
fn is_context_word_at(tokens: &[Token], at: usize) -> bool
    ensures { result ≡ passes is_context_start (slice_get tokens.now at) }
{
    match tokens.get(at) {
        Some(token) => is_sign_of(token, ".") || token.kind == WORD,
        None => false,
    }
}

/// Reads a point where one comes.
fn read_point(
    alloc: Global,
    tokens: &[Token],
    at: usize,
) -> Result<(Option<Token>, usize), SyntaxRefusal>
    ensures { Reads tokens.now templates (is_sign_of (codes ".")) (Maybe (Keep (is_sign_of (codes ".")))) at
        (optional_tree Leaf) result }
{
    if !is_sign_at(tokens, at, ".") {
        return Ok((None, at));
    }
    let (point, next) = read_sign(alloc, tokens, at, ".")?;
    Ok((Some(point), next))
}

/// Reads a further word of a context.
fn read_context_word(
    alloc: Global,
    tokens: &[Token],
    at: usize,
) -> Result<(ContextWord, usize), SyntaxRefusal>
    ensures { Reads tokens.now templates closed context_word at context_word_tree result }
{
    let (point, next) = read_point(alloc, tokens, at)?;
    let (word, next) = read_any_word(alloc, tokens, next)?;
    Ok((ContextWord { point, word }, next))
}

/// Reads the words of a context behind the first one.
fn read_context_words(
    alloc: Global,
    tokens: &[Token],
    at: usize,
) -> Result<(Vec<ContextWord>, usize), SyntaxRefusal>
    ensures { Reads tokens.now templates is_context_start (Many Empty context_word) at
        (λ words. list_tree context_word_tree Empty words.items) result }
{
    let mut words = Vec::new(alloc);
    let mut next = at;
    'turns: while is_context_word_at(tokens, next) {
        let (word, behind) = read_context_word(alloc, tokens, next)?;
        words.push(word)?;
        next = behind;
    }
    Ok((words, next))
}

/// Reads a context.
pub fn read_context(
    alloc: Global,
    tokens: &[Token],
    at: usize,
) -> Result<(Context, usize), SyntaxRefusal>
    ensures { Reads tokens.now templates is_context_start context at context_tree result }
{
    let (first, next) = read_any_word(alloc, tokens, at)?;
    let (others, next) = read_context_words(alloc, tokens, next)?;
    Ok((Context { first, others }, next))
}
