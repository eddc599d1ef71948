//! References with nothing between them, which stand behind what they belong to (X.722, section 8.2).

ghost use Rattle.std.specs.Prelude.{◌≡◌, ℕ, slice_get};
ghost use Rattle.token_grammar.specs.Spelling.{passes};
ghost use Rattle.token_grammar.specs.Outcome.{Reads};
ghost use Rattle.gdmo_members.specs.Clauses.{attributes, parameters, reference_row};
ghost use Rattle.gdmo_members.specs.Templates.{templates};
ghost use Rattle.token_grammar.specs.Parts.{vector_tree};
ghost use Rattle.gdmo_members.specs.MemberTrees.{attribute_reference_tree, parameter_reference_tree};
ghost use Rattle.gdmo_classes.specs.ClassForms.{is_reference_start, is_word_or_string};

use gdmo_members::attribute::{AttributeReference, read_attribute_reference};
use gdmo_members::parameter::{ParameterReference, read_parameter_reference};
use std::alloc::Global;
use token_grammar::token::STRING;
use token_grammar::token_tests::is_label;
use token_grammar::{SyntaxRefusal, Token};

/// Whether a reference begins at a place: a label, or the name of a document.
fn is_reference_at(tokens: &[Token], at: usize) -> bool
    ensures { result ≡ passes is_reference_start (slice_get tokens.now at) }
{
    match tokens.get(at) {
        Some(token) => token.kind == STRING || is_label(token),
        None => false,
    }
}

/// Reads as many references to attributes as come.
pub fn read_attribute_row(
    alloc: Global,
    tokens: &[Token],
    at: usize,
) -> Result<(Vec<AttributeReference>, usize), SyntaxRefusal>
    ensures { Reads tokens.now templates is_word_or_string (reference_row attributes) at
        (vector_tree attribute_reference_tree) result }
{
    let mut row = Vec::new(alloc);
    let mut next = at;
    'turns: while is_reference_at(tokens, next) {
        let (reference, behind) = read_attribute_reference(alloc, tokens, next)?;
        row.push(reference)?;
        next = behind;
    }
    Ok((row, next))
}

/// Reads as many references to parameters as come.
pub fn read_parameter_row(
    alloc: Global,
    tokens: &[Token],
    at: usize,
) -> Result<(Vec<ParameterReference>, usize), SyntaxRefusal>
    ensures { Reads tokens.now templates is_word_or_string (reference_row parameters) at
        (vector_tree parameter_reference_tree) result }
{
    let mut row = Vec::new(alloc);
    let mut next = at;
    'turns: while is_reference_at(tokens, next) {
        let (reference, behind) = read_parameter_reference(alloc, tokens, next)?;
        row.push(reference)?;
        next = behind;
    }
    Ok((row, next))
}
