//! Named numbers and named bits (X.680, sections 19.1, 20.1 and 22.1).

ghost use Rattle.std.specs.Prelude.{◌≡◌, codes};
ghost use Rattle.token_grammar.specs.Form.{Form, Empty, Keep, Leaf, Listed, Maybe};
ghost use Rattle.token_grammar.specs.Outcome.{Reads, closed};
ghost use Rattle.token_grammar.specs.Parts.{optional_tree, vector_tree};
ghost use Rattle.asn1_values_syntax.specs.Asn1.{asn1};
ghost use Rattle.asn1_values_syntax.specs.TypeForms.{brace, is_number_or_name, named_bit, named_bits, named_integer};
ghost use Rattle.asn1_values_syntax.specs.TypeForms.{named_integers};
ghost use Rattle.asn1_values_syntax.specs.ValueForms.{comma};
ghost use Rattle.asn1_values_syntax.specs.NamedNumberTrees.{named_bit_tree, named_bits_tree, named_integer_tree};
ghost use Rattle.asn1_values_syntax.specs.NamedNumberTrees.{named_integers_tree};

use super::numbers::{Bound, read_bound};
use std::alloc::Global;
use token_grammar::token_reading::{keep_token, place_behind, read_name, skip_sign};
use token_grammar::token_tests::{is_arc_at, is_sign_at};
use token_grammar::{SyntaxRefusal, Token};

/// A named number of INTEGER, or an item of ENUMERATED, `name(number)`.
#[derive(Drop)]
pub struct NamedInteger {
    /// The name.
    pub name: Token,
    /// The number, or the name of a value that is one.
    pub number: Bound,
}

/// A named bit, `name(number)`.
#[derive(Drop)]
pub struct NamedBit {
    /// The name.
    pub name: Token,
    /// The number, or the name of a value that is one.
    pub number: Token,
}

/// Reads a named number.
fn read_named_integer(
    alloc: Global,
    tokens: &[Token],
    at: usize,
) -> Result<(NamedInteger, usize), SyntaxRefusal>
    ensures { Reads tokens.now asn1 closed named_integer at named_integer_tree result }
{
    let (name, next) = read_name(alloc, tokens, at)?;
    let next = skip_sign(tokens, next, "(")?;
    let (number, next) = read_bound(alloc, tokens, next)?;
    let next = skip_sign(tokens, next, ")")?;
    Ok((NamedInteger { name, number }, next))
}

/// Reads named numbers with commas between them.
fn read_integer_list(
    alloc: Global,
    tokens: &[Token],
    at: usize,
) -> Result<(Vec<NamedInteger>, usize), SyntaxRefusal>
    ensures { Reads tokens.now asn1 comma (Listed comma Empty named_integer) at (vector_tree named_integer_tree)
        result }
{
    let mut list = Vec::new(alloc);
    let mut next = at;
    'turns: loop {
        let (item, behind) = read_named_integer(alloc, tokens, next)?;
        list.push(item)?;
        let Some(place) = place_behind(tokens, behind, ",") else {
            return Ok((list, behind));
        };
        next = place;
    }
}

/// Reads named numbers in braces.
pub fn read_named_integers(
    alloc: Global,
    tokens: &[Token],
    at: usize,
) -> Result<(Vec<NamedInteger>, usize), SyntaxRefusal>
    ensures { Reads tokens.now asn1 closed named_integers at named_integers_tree result }
{
    let next = skip_sign(tokens, at, "{")?;
    let (list, next) = read_integer_list(alloc, tokens, next)?;
    let next = skip_sign(tokens, next, "}")?;
    Ok((list, next))
}

/// Reads named numbers in braces where a brace comes.
pub fn read_optional_integers(
    alloc: Global,
    tokens: &[Token],
    at: usize,
) -> Result<(Option<Vec<NamedInteger>>, usize), SyntaxRefusal>
    ensures { Reads tokens.now asn1 brace (Maybe named_integers) at (optional_tree named_integers_tree) result }
{
    if !is_sign_at(tokens, at, "{") {
        return Ok((None, at));
    }
    let (list, next) = read_named_integers(alloc, tokens, at)?;
    Ok((Some(list), next))
}

/// Reads a number, or a name that stands in its place.
pub fn read_number_or_name(
    alloc: Global,
    tokens: &[Token],
    at: usize,
) -> Result<(Token, usize), SyntaxRefusal>
    ensures { Reads tokens.now asn1 closed (Keep is_number_or_name) at Leaf result }
{
    keep_token(alloc, tokens, at, is_arc_at(tokens, at))
}

/// Reads a named bit.
fn read_named_bit(
    alloc: Global,
    tokens: &[Token],
    at: usize,
) -> Result<(NamedBit, usize), SyntaxRefusal>
    ensures { Reads tokens.now asn1 closed named_bit at named_bit_tree result }
{
    let (name, next) = read_name(alloc, tokens, at)?;
    let next = skip_sign(tokens, next, "(")?;
    let (number, next) = read_number_or_name(alloc, tokens, next)?;
    let next = skip_sign(tokens, next, ")")?;
    Ok((NamedBit { name, number }, next))
}

/// Reads named bits with commas between them.
fn read_bit_list(
    alloc: Global,
    tokens: &[Token],
    at: usize,
) -> Result<(Vec<NamedBit>, usize), SyntaxRefusal>
    ensures { Reads tokens.now asn1 comma (Listed comma Empty named_bit) at (vector_tree named_bit_tree) result }
{
    let mut list = Vec::new(alloc);
    let mut next = at;
    'turns: loop {
        let (item, behind) = read_named_bit(alloc, tokens, next)?;
        list.push(item)?;
        let Some(place) = place_behind(tokens, behind, ",") else {
            return Ok((list, behind));
        };
        next = place;
    }
}

/// Reads named bits in braces.
fn read_named_bits(
    alloc: Global,
    tokens: &[Token],
    at: usize,
) -> Result<(Vec<NamedBit>, usize), SyntaxRefusal>
    ensures { Reads tokens.now asn1 closed named_bits at named_bits_tree result }
{
    let next = skip_sign(tokens, at, "{")?;
    let (list, next) = read_bit_list(alloc, tokens, next)?;
    let next = skip_sign(tokens, next, "}")?;
    Ok((list, next))
}

/// Reads named bits in braces where a brace comes.
pub fn read_optional_bits(
    alloc: Global,
    tokens: &[Token],
    at: usize,
) -> Result<(Option<Vec<NamedBit>>, usize), SyntaxRefusal>
    ensures { Reads tokens.now asn1 brace (Maybe named_bits) at (optional_tree named_bits_tree) result }
{
    if !is_sign_at(tokens, at, "{") {
        return Ok((None, at));
    }
    let (list, next) = read_named_bits(alloc, tokens, at)?;
    Ok((Some(list), next))
}
