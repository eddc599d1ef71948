//! The end of a template, with the identifier under which it is registered (X.722, section 8.2).

ghost use Rattle.std.specs.Prelude.{◌≡◌, ℕ, codes};
ghost use Rattle.token_grammar.specs.Form.{Form, Maybe};
ghost use Rattle.token_grammar.specs.Outcome.{Reads, closed};
ghost use Rattle.token_grammar.specs.Parts.{optional_tree};
ghost use Rattle.token_grammar.specs.TokenTests.{is_word_of};
ghost use Rattle.gdmo_members.specs.Clauses.{registration, ending, registered_ending};
ghost use Rattle.gdmo_members.specs.Templates.{templates};
ghost use Rattle.gdmo_members.specs.Trees.{registration_tree, ending_tree, registered_ending_tree};

use std::alloc::Global;
use token_grammar::object_identifier::{ObjectIdentifier, read_object_identifier};
use token_grammar::token_reading::{skip_sign, skip_words};
use token_grammar::token_tests::is_word_at;
use token_grammar::{SyntaxRefusal, Token};

/// Reads `REGISTERED AS oid`.
fn read_registration(
    alloc: Global,
    tokens: &[Token],
    at: usize,
) -> Result<(ObjectIdentifier, usize), SyntaxRefusal>
    ensures { Reads tokens.now templates closed registration at registration_tree result }
{
    let next = skip_words(tokens, at, &["REGISTERED", "AS"])?;
    let (identifier, next) = read_object_identifier(alloc, tokens, next)?;
    Ok((identifier, next))
}

/// Reads `REGISTERED AS oid` where it comes.
fn read_optional_registration(
    alloc: Global,
    tokens: &[Token],
    at: usize,
) -> Result<(Option<ObjectIdentifier>, usize), SyntaxRefusal>
    ensures { Reads tokens.now templates (is_word_of (codes "REGISTERED")) (Maybe registration) at
        (optional_tree registration_tree) result }
{
    if !is_word_at(tokens, at, "REGISTERED") {
        return Ok((None, at));
    }
    let (identifier, next) = read_registration(alloc, tokens, at)?;
    Ok((Some(identifier), next))
}

/// Reads `[REGISTERED AS oid];`, the end of a template that may be without an identifier.
pub fn read_ending(
    alloc: Global,
    tokens: &[Token],
    at: usize,
) -> Result<(Option<ObjectIdentifier>, usize), SyntaxRefusal>
    ensures { Reads tokens.now templates closed ending at ending_tree result }
{
    let (identifier, next) = read_optional_registration(alloc, tokens, at)?;
    let next = skip_sign(tokens, next, ";")?;
    Ok((identifier, next))
}

/// Reads `REGISTERED AS oid;`, the end of a template that has an identifier.
pub fn read_registered_ending(
    alloc: Global,
    tokens: &[Token],
    at: usize,
) -> Result<(ObjectIdentifier, usize), SyntaxRefusal>
    ensures { Reads tokens.now templates closed registered_ending at registered_ending_tree result }
{
    let (identifier, next) = read_registration(alloc, tokens, at)?;
    let next = skip_sign(tokens, next, ";")?;
    Ok((identifier, next))
}
