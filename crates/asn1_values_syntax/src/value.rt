//! The text of a value: literals, numbers, names, chosen alternatives, and what stands in braces (X.680,
//! section 17.7; X.208, sections 17 to 28). Values stand in values.

ghost use Rattle.std.specs.Prelude.{◌≡◌, ◌+◌, ◌&&◌, slice_get, codes};
ghost use Rattle.token_grammar.specs.Form.{Form, Bare, Empty, Keep, Leaf, Listed, Named, Pair, Then};
ghost use Rattle.token_grammar.specs.Outcome.{Reads, closed};
ghost use Rattle.token_grammar.specs.Parts.{sign, vector_tree};
ghost use Rattle.token_grammar.specs.Spelling.{passes};
ghost use Rattle.token_grammar.specs.TokenTests.{is_name};
ghost use Rattle.asn1_values_syntax.specs.Asn1.{asn1};
ghost use Rattle.asn1_values_syntax.specs.ValueForms.{values, braces_content, colon, is_literal, is_part_end};
ghost use Rattle.asn1_values_syntax.specs.ValueForms.{is_parts_end, is_value_start, comma, named_value, part};
ghost use Rattle.asn1_values_syntax.specs.ValueForms.{parts_end};
ghost use Rattle.asn1_values_syntax.specs.ValueTrees.{content_tree, named_value_tree, part_tree, value_tree};
ghost use Rattle.asn1_values_syntax.specs.NumberTrees.{arcs_end_tree};

use super::arcs::{SureArcs, are_arcs_at, are_named_arcs_at, read_arcs_end};
use super::numbers::{SignedNumber, read_signed_number};
use std::alloc::Global;
use token_grammar::token::{BIT_STRING, HEX_STRING, NUMBER, STRING};
use token_grammar::token_reading::{keep_token, place_behind, read_name, read_sign, skip_sign};
use token_grammar::token_tests::{
    is_name, is_name_at, is_one_of, is_sign_at, is_sign_of, token_at,
};
use token_grammar::{SyntaxRefusal, Token};

/// The text of a value.
#[cycle(values)]
#[derive(Drop)]
pub enum ValueText {
    /// TRUE, FALSE, NULL, a string, or octets or bits in digits.
    Literal(Token),
    /// A number with its sign.
    Number(SignedNumber),
    /// A name, alone or before the value that it chooses.
    Named(NamedValue),
    /// What stands in braces.
    Braces {
        /// The brace with which it begins.
        brace: Token,
        /// What stands behind it.
        content: BracesText,
    },
}

/// A name in a value.
#[cycle(values)]
#[derive(Drop)]
pub enum NamedValue {
    /// The name of a number.
    Name(Token),
    /// An alternative and its value, `name : value`.
    Choice {
        /// The name of the alternative.
        name: Token,
        /// Its value.
        value: Box<ValueText>,
    },
}

/// What stands in braces.
#[cycle(values)]
#[derive(Drop)]
pub enum BracesText {
    /// Nothing.
    Nothing,
    /// Components, elements, names of bits, or arcs of an object identifier that may be such: `{number}`,
    /// `{name}` or `{name number}`.
    Parts(Vec<ValuePart>),
    /// An object identifier whose first arc has its number.
    Arcs(Box<SureArcs>),
    /// An object identifier whose first name has no number.
    NamedArcs {
        /// The first name.
        first: Token,
        /// The arcs behind it.
        others: Box<SureArcs>,
    },
}

/// A component or an element.
#[cycle(values)]
#[derive(Drop)]
pub enum ValuePart {
    /// A component that has its name, `name value`.
    Named {
        /// The name.
        name: Token,
        /// The value.
        value: ValueText,
    },
    /// A value alone.
    Unnamed(ValueText),
}

/// Whether a token is a literal.
fn is_literal(token: &Token) -> bool
    ensures { result ≡ is_literal token.now }
{
    is_one_of(token, &["TRUE", "FALSE", "NULL"])
        || token.kind == STRING
        || token.kind == HEX_STRING
        || token.kind == BIT_STRING
}

/// Whether a literal stands at a place.
fn is_literal_at(tokens: &[Token], at: usize) -> bool
    ensures { result ≡ passes is_literal (slice_get tokens.now at) }
{
    match tokens.get(at) {
        Some(token) => is_literal(token),
        None => false,
    }
}

/// Whether a value begins with a token.
fn is_value_start(token: &Token) -> bool
    ensures { result ≡ is_value_start token.now }
{
    is_literal(token)
        || is_sign_of(token, "-")
        || token.kind == NUMBER
        || is_name(token)
        || is_sign_of(token, "{")
}

/// Whether a value begins at a place.
fn is_value_at(tokens: &[Token], at: usize) -> bool
    ensures { result ≡ passes is_value_start (slice_get tokens.now at) }
{
    match tokens.get(at) {
        Some(token) => is_value_start(token),
        None => false,
    }
}

/// Whether a name stands at a place and a value begins behind it.
fn is_named_part_at(tokens: &[Token], at: usize) -> bool
    ensures { result ≡ (passes is_name (slice_get tokens.now at) && passes is_value_start
        (slice_get tokens.now (at + 1))) }
{
    match token_at(tokens, at) {
        Some((token, next)) => is_name(token) && is_value_at(tokens, next),
        None => false,
    }
}

/// Reads a literal.
fn read_literal(alloc: Global, tokens: &[Token], at: usize) -> Result<(Token, usize), SyntaxRefusal>
    ensures { Reads tokens.now asn1 closed (Keep is_literal) at Leaf result }
{
    keep_token(alloc, tokens, at, is_literal_at(tokens, at))
}

/// Reads the text of a value from the place `at` of the tokens on.
///
/// The answer is the text and the place behind it. `Syntax` has the place of the first token with which no
/// value goes on, or the number of tokens where they end too early; for a place past the end of the tokens it
/// is that place. `Memory` comes where there is no memory for the text (X.680, section 17.7).
#[cycle(values)]
pub fn read_value(
    alloc: Global,
    tokens: &[Token],
    at: usize,
) -> Result<(ValueText, usize), SyntaxRefusal>
    ensures { Reads tokens.now asn1 colon (Named values) at value_tree result }
{
    if is_literal_at(tokens, at) {
        let (literal, next) = read_literal(alloc, tokens, at)?;
        return Ok((ValueText::Literal(literal), next));
    }
    if is_name_at(tokens, at) {
        let (value, next) = read_named_value(alloc, tokens, at)?;
        return Ok((ValueText::Named(value), next));
    }
    if is_sign_at(tokens, at, "{") {
        let (brace, next) = read_sign(alloc, tokens, at, "{")?;
        let (content, next) = read_content(alloc, tokens, next)?;
        return Ok((ValueText::Braces { brace, content }, next));
    }
    let (number, next) = read_signed_number(alloc, tokens, at)?;
    Ok((ValueText::Number(number), next))
}

/// Reads a name, and the value that it chooses where a colon comes.
#[cycle(values)]
fn read_named_value(
    alloc: Global,
    tokens: &[Token],
    at: usize,
) -> Result<(NamedValue, usize), SyntaxRefusal>
    ensures { Reads tokens.now asn1 colon named_value at named_value_tree result }
{
    let (name, next) = read_name(alloc, tokens, at)?;
    if is_sign_at(tokens, next, ":") {
        let (value, next) = read_chosen_value(alloc, tokens, next)?;
        return Ok((NamedValue::Choice { name, value }, next));
    }
    Ok((NamedValue::Name(name), next))
}

/// Reads a colon and the value behind it, into a box.
#[cycle(values)]
fn read_chosen_value(
    alloc: Global,
    tokens: &[Token],
    at: usize,
) -> Result<(Box<ValueText>, usize), SyntaxRefusal>
    ensures { Reads tokens.now asn1 colon (Then (sign (codes ":")) (Named values)) at
        (λ value. Pair Bare (value_tree value.value)) result }
{
    let next = skip_sign(tokens, at, ":")?;
    let (value, next) = read_value(alloc, tokens, next)?;
    let boxed = Box::new(alloc, value)?;
    Ok((boxed, next))
}

/// Reads what stands behind a brace. Arcs are told from parts by their first two or three tokens.
#[cycle(values)]
fn read_content(
    alloc: Global,
    tokens: &[Token],
    at: usize,
) -> Result<(BracesText, usize), SyntaxRefusal>
    ensures { Reads tokens.now asn1 closed braces_content at content_tree result }
{
    if is_sign_at(tokens, at, "}") {
        let next = skip_sign(tokens, at, "}")?;
        return Ok((BracesText::Nothing, next));
    }
    if are_arcs_at(tokens, at) {
        let (arcs, next) = read_arcs_end(alloc, tokens, at)?;
        return Ok((BracesText::Arcs(arcs), next));
    }
    if are_named_arcs_at(tokens, at) {
        let (first, next) = read_name(alloc, tokens, at)?;
        let (others, next) = read_arcs_end(alloc, tokens, next)?;
        return Ok((BracesText::NamedArcs { first, others }, next));
    }
    let (parts, next) = read_parts_end(alloc, tokens, at)?;
    Ok((BracesText::Parts(parts), next))
}

/// Reads parts with commas between them, and the brace that ends them.
#[cycle(values)]
fn read_parts_end(
    alloc: Global,
    tokens: &[Token],
    at: usize,
) -> Result<(Vec<ValuePart>, usize), SyntaxRefusal>
    ensures { Reads tokens.now asn1 closed parts_end at (λ parts. Pair (vector_tree part_tree parts) Bare) result }
{
    let (parts, next) = read_parts(alloc, tokens, at)?;
    let next = skip_sign(tokens, next, "}")?;
    Ok((parts, next))
}

/// Reads parts with commas between them.
#[cycle(values)]
fn read_parts(
    alloc: Global,
    tokens: &[Token],
    at: usize,
) -> Result<(Vec<ValuePart>, usize), SyntaxRefusal>
    ensures { Reads tokens.now asn1 is_parts_end (Listed comma Empty part) at (vector_tree part_tree) result }
{
    let mut list = Vec::new(alloc);
    let mut next = at;
    'turns: loop {
        let (part, behind) = read_part(alloc, tokens, next)?;
        list.push(part)?;
        let Some(place) = place_behind(tokens, behind, ",") else {
            return Ok((list, behind));
        };
        next = place;
    }
}

/// Reads a part: a value, with the name of its component before it where a name stands before a value.
#[cycle(values)]
fn read_part(
    alloc: Global,
    tokens: &[Token],
    at: usize,
) -> Result<(ValuePart, usize), SyntaxRefusal>
    ensures { Reads tokens.now asn1 is_part_end part at part_tree result }
{
    if is_named_part_at(tokens, at) {
        let (name, next) = read_name(alloc, tokens, at)?;
        let (value, next) = read_value(alloc, tokens, next)?;
        return Ok((ValuePart::Named { name, value }, next));
    }
    let (value, next) = read_value(alloc, tokens, at)?;
    Ok((ValuePart::Unnamed(value), next))
}
