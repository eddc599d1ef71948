//! Numbers with a sign, and bounds (X.680, sections 19.1 and 51).

ghost use Rattle.std.specs.Prelude.{◌≡◌, codes};
ghost use Rattle.token_grammar.specs.Form.{Form, Keep, Leaf, Maybe};
ghost use Rattle.token_grammar.specs.Outcome.{Reads, closed};
ghost use Rattle.token_grammar.specs.Parts.{optional_tree};
ghost use Rattle.asn1_values_syntax.specs.Asn1.{asn1};
ghost use Rattle.asn1_values_syntax.specs.ValueForms.{bound, minus, signed_number};
ghost use Rattle.asn1_values_syntax.specs.NumberTrees.{bound_tree, signed_number_tree};

use std::alloc::Global;
use token_grammar::token_reading::{read_name, read_number, read_sign};
use token_grammar::token_tests::{is_name_at, is_sign_at};
use token_grammar::{SyntaxRefusal, Token};

/// A number with its sign, `[-] number`.
#[derive(Drop)]
pub struct SignedNumber {
    /// The sign, where one stands.
    pub minus: Option<Token>,
    /// The digits.
    pub number: Token,
}

/// What stands for a whole number that isn't a value: a bound of a constraint, or a named number's number.
#[derive(Drop)]
pub enum Bound {
    /// The number itself.
    Number(SignedNumber),
    /// The name of a number or of a value that is one.
    Name(Token),
}

/// Reads a minus where one comes.
fn read_minus(
    alloc: Global,
    tokens: &[Token],
    at: usize,
) -> Result<(Option<Token>, usize), SyntaxRefusal>
    ensures { Reads tokens.now asn1 minus (Maybe (Keep minus)) at (optional_tree Leaf) result }
{
    if !is_sign_at(tokens, at, "-") {
        return Ok((None, at));
    }
    let (minus, next) = read_sign(alloc, tokens, at, "-")?;
    Ok((Some(minus), next))
}

/// Reads a number, with a minus before it where one comes.
pub fn read_signed_number(
    alloc: Global,
    tokens: &[Token],
    at: usize,
) -> Result<(SignedNumber, usize), SyntaxRefusal>
    ensures { Reads tokens.now asn1 closed signed_number at signed_number_tree result }
{
    let (minus, next) = read_minus(alloc, tokens, at)?;
    let (number, next) = read_number(alloc, tokens, next)?;
    Ok((SignedNumber { minus, number }, next))
}

/// Reads a bound: a name, or a number with its sign.
pub fn read_bound(
    alloc: Global,
    tokens: &[Token],
    at: usize,
) -> Result<(Bound, usize), SyntaxRefusal>
    ensures { Reads tokens.now asn1 closed bound at bound_tree result }
{
    if is_name_at(tokens, at) {
        let (name, next) = read_name(alloc, tokens, at)?;
        return Ok((Bound::Name(name), next));
    }
    let (number, next) = read_signed_number(alloc, tokens, at)?;
    Ok((Bound::Number(number), next))
}
