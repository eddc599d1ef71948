//! The arcs of an object identifier in a value, where they can't be a list of parts (X.680, section 32.3).

ghost use Rattle.std.specs.Prelude.{◌≡◌};
ghost use Rattle.token_grammar.specs.Outcome.{Reads, closed};
ghost use Rattle.token_grammar.specs.Parts.{named_number};
ghost use Rattle.token_grammar.specs.TokenTests.{is_arc_start};
ghost use Rattle.asn1_values_syntax.specs.Asn1.{asn1};
ghost use Rattle.asn1_values_syntax.specs.Lookahead.{is_name_before_parenthesis, is_number_before_arc, starts_arcs};
ghost use Rattle.asn1_values_syntax.specs.Lookahead.{starts_named_arcs};
ghost use Rattle.asn1_values_syntax.specs.ValueForms.{arcs_end, sure_arcs};
ghost use Rattle.asn1_values_syntax.specs.NumberTrees.{arcs_end_tree, named_arc_tree, sure_arcs_tree};

use std::alloc::Global;
use token_grammar::object_identifier::{Arc, read_arc, read_arcs};
use token_grammar::token::NUMBER;
use token_grammar::token_reading::{read_name, read_number, skip_sign};
use token_grammar::token_tests::{is_arc_at, is_name, is_number_at, is_sign_at, token_at};
use token_grammar::{SyntaxRefusal, Token};

/// An arc that has its number in parentheses behind its name, `name(number)`.
#[derive(Drop)]
pub struct NamedArc {
    /// The name, which says nothing.
    pub name: Token,
    /// The number of the arc.
    pub number: Token,
}

/// Arcs that can't be a list of parts.
#[derive(Drop)]
pub enum SureArcs {
    /// A number, and at least one arc behind it.
    Number {
        /// The number of the first arc.
        first: Token,
        /// The second arc.
        second: Arc,
        /// The arcs behind the second, in order.
        others: Vec<Arc>,
    },
    /// A name with its number, and the arcs behind it.
    Named {
        /// The first arc.
        first: NamedArc,
        /// The arcs behind the first, in order.
        others: Vec<Arc>,
    },
}

/// Whether a number stands at a place and an arc behind it.
fn is_number_before_arc(tokens: &[Token], at: usize) -> bool
    ensures { result ≡ is_number_before_arc tokens.now at }
{
    match token_at(tokens, at) {
        Some((token, next)) => token.kind == NUMBER && is_arc_at(tokens, next),
        None => false,
    }
}

/// Whether a name stands at a place and a parenthesis behind it.
fn is_name_before_parenthesis(tokens: &[Token], at: usize) -> bool
    ensures { result ≡ is_name_before_parenthesis tokens.now at }
{
    match token_at(tokens, at) {
        Some((token, next)) => is_name(token) && is_sign_at(tokens, next, "("),
        None => false,
    }
}

/// Whether arcs stand at a place that can't be a part: a number before an arc, or a name before a parenthesis.
pub fn are_arcs_at(tokens: &[Token], at: usize) -> bool
    ensures { result ≡ starts_arcs tokens.now at }
{
    is_number_before_arc(tokens, at) || is_name_before_parenthesis(tokens, at)
}

/// Whether such arcs stand behind a name at a place.
pub fn are_named_arcs_at(tokens: &[Token], at: usize) -> bool
    ensures { result ≡ starts_named_arcs tokens.now at }
{
    match token_at(tokens, at) {
        Some((token, next)) => is_name(token) && are_arcs_at(tokens, next),
        None => false,
    }
}

/// Reads `name(number)`.
fn read_named_arc(
    alloc: Global,
    tokens: &[Token],
    at: usize,
) -> Result<(NamedArc, usize), SyntaxRefusal>
    ensures { Reads tokens.now asn1 closed named_number at named_arc_tree result }
{
    let (name, next) = read_name(alloc, tokens, at)?;
    let next = skip_sign(tokens, next, "(")?;
    let (number, next) = read_number(alloc, tokens, next)?;
    let next = skip_sign(tokens, next, ")")?;
    Ok((NamedArc { name, number }, next))
}

/// Reads arcs that can't be a list of parts.
fn read_sure_arcs(
    alloc: Global,
    tokens: &[Token],
    at: usize,
) -> Result<(SureArcs, usize), SyntaxRefusal>
    ensures { Reads tokens.now asn1 is_arc_start sure_arcs at sure_arcs_tree result }
{
    if is_number_at(tokens, at) {
        let (first, next) = read_number(alloc, tokens, at)?;
        let (second, next) = read_arc(alloc, tokens, next)?;
        let (others, next) = read_arcs(alloc, tokens, next)?;
        return Ok((
            SureArcs::Number {
                first,
                second,
                others,
            },
            next,
        ));
    }
    let (first, next) = read_named_arc(alloc, tokens, at)?;
    let (others, next) = read_arcs(alloc, tokens, next)?;
    Ok((SureArcs::Named { first, others }, next))
}

/// Reads arcs that can't be a list of parts, and the brace that ends them, into a box.
pub fn read_arcs_end(
    alloc: Global,
    tokens: &[Token],
    at: usize,
) -> Result<(Box<SureArcs>, usize), SyntaxRefusal>
    ensures { Reads tokens.now asn1 closed arcs_end at (λ arcs. arcs_end_tree arcs.value) result }
{
    let (arcs, next) = read_sure_arcs(alloc, tokens, at)?;
    let next = skip_sign(tokens, next, "}")?;
    let boxed = Box::new(alloc, arcs)?;
    Ok((boxed, next))
}
