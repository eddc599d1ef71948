//! Constraints (X.680, sections 49 to 51; X.208, section 37).

ghost use Rattle.std.specs.Prelude.{◌≡◌, codes};
ghost use Rattle.token_grammar.specs.Form.{Form, Empty, Listed, Maybe, Or, Then};
ghost use Rattle.token_grammar.specs.Outcome.{Reads, closed};
ghost use Rattle.token_grammar.specs.Parts.{optional_tree, sign, vector_tree};
ghost use Rattle.asn1_values_syntax.specs.Asn1.{asn1};
ghost use Rattle.asn1_values_syntax.specs.TypeEnds.{is_ranges_end};
ghost use Rattle.asn1_values_syntax.specs.TypeForms.{constraint, constraints, dots, list_size, parenthesis, range};
ghost use Rattle.asn1_values_syntax.specs.TypeForms.{ranges, size};
ghost use Rattle.asn1_values_syntax.specs.ValueForms.{bound};
ghost use Rattle.asn1_values_syntax.specs.ConstraintTrees.{constraint_content_tree, constraint_tree, list_size_tree};
ghost use Rattle.asn1_values_syntax.specs.ConstraintTrees.{range_tree, size_tree, upper_tree};

use super::numbers::{Bound, read_bound};
use std::alloc::Global;
use token_grammar::token_reading::{place_behind, skip_sign, skip_word};
use token_grammar::token_tests::{is_sign_at, is_word_at};
use token_grammar::{SyntaxRefusal, Token};

/// A value, or the values from one bound to another.
#[derive(Drop)]
pub struct Range {
    /// The lower bound, or the value.
    pub lower: Bound,
    /// The upper bound, where two stand.
    pub upper: Option<Bound>,
}

/// A constraint.
#[derive(Drop)]
pub enum Constraint {
    /// Of the size, `(SIZE(range | ..))`.
    Size(Vec<Range>),
    /// Of the value, `(range | ..)`.
    Values(Vec<Range>),
}

/// Reads two points and the upper bound where they come.
fn read_upper(
    alloc: Global,
    tokens: &[Token],
    at: usize,
) -> Result<(Option<Bound>, usize), SyntaxRefusal>
    ensures { Reads tokens.now asn1 dots (Maybe (Then (sign (codes "..")) bound)) at (optional_tree upper_tree) result }
{
    if !is_sign_at(tokens, at, "..") {
        return Ok((None, at));
    }
    let next = skip_sign(tokens, at, "..")?;
    let (upper, next) = read_bound(alloc, tokens, next)?;
    Ok((Some(upper), next))
}

/// Reads a value or a range of values.
fn read_range(alloc: Global, tokens: &[Token], at: usize) -> Result<(Range, usize), SyntaxRefusal>
    ensures { Reads tokens.now asn1 dots range at range_tree result }
{
    let (lower, next) = read_bound(alloc, tokens, at)?;
    let (upper, next) = read_upper(alloc, tokens, next)?;
    Ok((Range { lower, upper }, next))
}

/// Reads ranges with bars between them.
fn read_ranges(
    alloc: Global,
    tokens: &[Token],
    at: usize,
) -> Result<(Vec<Range>, usize), SyntaxRefusal>
    ensures { Reads tokens.now asn1 is_ranges_end ranges at (vector_tree range_tree) result }
{
    let mut list = Vec::new(alloc);
    let mut next = at;
    'turns: loop {
        let (range, behind) = read_range(alloc, tokens, next)?;
        list.push(range)?;
        let Some(place) = place_behind(tokens, behind, "|") else {
            return Ok((list, behind));
        };
        next = place;
    }
}

/// Reads `SIZE(range | ..)`.
fn read_size(
    alloc: Global,
    tokens: &[Token],
    at: usize,
) -> Result<(Vec<Range>, usize), SyntaxRefusal>
    ensures { Reads tokens.now asn1 closed size at size_tree result }
{
    let next = skip_word(tokens, at, "SIZE")?;
    let next = skip_sign(tokens, next, "(")?;
    let (ranges, next) = read_ranges(alloc, tokens, next)?;
    let next = skip_sign(tokens, next, ")")?;
    Ok((ranges, next))
}

/// Reads what stands in the parentheses of a constraint.
fn read_content(
    alloc: Global,
    tokens: &[Token],
    at: usize,
) -> Result<(Constraint, usize), SyntaxRefusal>
    ensures { Reads tokens.now asn1 is_ranges_end (Or size ranges) at constraint_content_tree result }
{
    if is_word_at(tokens, at, "SIZE") {
        let (sizes, next) = read_size(alloc, tokens, at)?;
        return Ok((Constraint::Size(sizes), next));
    }
    let (ranges, next) = read_ranges(alloc, tokens, at)?;
    Ok((Constraint::Values(ranges), next))
}

/// Reads a constraint.
fn read_constraint(
    alloc: Global,
    tokens: &[Token],
    at: usize,
) -> Result<(Constraint, usize), SyntaxRefusal>
    ensures { Reads tokens.now asn1 closed constraint at constraint_tree result }
{
    let next = skip_sign(tokens, at, "(")?;
    let (content, next) = read_content(alloc, tokens, next)?;
    let next = skip_sign(tokens, next, ")")?;
    Ok((content, next))
}

/// Reads constraints, as many as come.
pub fn read_constraints(
    alloc: Global,
    tokens: &[Token],
    at: usize,
) -> Result<(Vec<Constraint>, usize), SyntaxRefusal>
    ensures { Reads tokens.now asn1 parenthesis constraints at (vector_tree constraint_tree) result }
{
    let mut list = Vec::new(alloc);
    let mut next = at;
    'turns: while is_sign_at(tokens, next, "(") {
        let (constraint, behind) = read_constraint(alloc, tokens, next)?;
        list.push(constraint)?;
        next = behind;
    }
    Ok((list, next))
}

/// Reads the size of a list, `(SIZE(range | ..))`, where a parenthesis comes.
pub fn read_list_size(
    alloc: Global,
    tokens: &[Token],
    at: usize,
) -> Result<(Option<Vec<Range>>, usize), SyntaxRefusal>
    ensures { Reads tokens.now asn1 parenthesis (Maybe list_size) at (optional_tree list_size_tree) result }
{
    if !is_sign_at(tokens, at, "(") {
        return Ok((None, at));
    }
    let next = skip_sign(tokens, at, "(")?;
    let (sizes, next) = read_size(alloc, tokens, next)?;
    let next = skip_sign(tokens, next, ")")?;
    Ok((Some(sizes), next))
}
