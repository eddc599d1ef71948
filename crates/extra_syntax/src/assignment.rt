//! Attributes with their values, `attribute = value, ..` (docs/PROFILE.md, section 9).

ghost use Rattle.std.specs.Prelude.{◌≡◌};
ghost use Rattle.token_grammar.specs.Outcome.{Reads, closed};
ghost use Rattle.asn1_values_syntax.specs.Asn1.{asn1};
ghost use Rattle.asn1_values_syntax.specs.ValueForms.{colon};
ghost use Rattle.extra_syntax.specs.SectionForms.{assignment, assignments, name};
ghost use Rattle.extra_syntax.specs.SectionEnds.{is_assignments_end};
ghost use Rattle.extra_syntax.specs.SectionTrees.{assignment_tree, assignments_tree, name_tree};

use asn1_values_syntax::value::{ValueText, read_value};
use std::alloc::Global;
use token_grammar::part_keeping::keep_part;
use token_grammar::token_reading::{place_behind, read_label, skip_sign};
use token_grammar::{SyntaxRefusal, Token};

/// An attribute and its value, `attribute = value`.
#[derive(Drop)]
pub struct Assignment {
    /// The attribute's label.
    pub attribute: Token,
    /// The value.
    pub value: ValueText,
}

/// Reads `attribute = value`.
fn read_assignment(
    alloc: Global,
    tokens: &[Token],
    at: usize,
) -> Result<(Assignment, usize), SyntaxRefusal>
    ensures { Reads tokens.now asn1 colon assignment at assignment_tree result }
{
    let (attribute, next) = read_label(alloc, tokens, at)?;
    let next = skip_sign(tokens, next, "=")?;
    let (value, next) = read_value(alloc, tokens, next)?;
    Ok((Assignment { attribute, value }, next))
}

/// Reads attributes with their values and commas between them.
pub fn read_assignments(
    alloc: Global,
    tokens: &[Token],
    at: usize,
) -> Result<(Vec<Assignment>, usize), SyntaxRefusal>
    ensures { Reads tokens.now asn1 is_assignments_end assignments at assignments_tree result }
{
    let mut list = Vec::new(alloc);
    let mut next = at;
    'turns: loop {
        let behind = keep_part(&mut list, read_assignment(alloc, tokens, next))?;
        let Some(place) = place_behind(tokens, behind, ",") else {
            return Ok((list, behind));
        };
        next = place;
    }
}

/// Reads a name: attributes with their values, in braces.
pub fn read_instance_name(
    alloc: Global,
    tokens: &[Token],
    at: usize,
) -> Result<(Vec<Assignment>, usize), SyntaxRefusal>
    ensures { Reads tokens.now asn1 closed name at name_tree result }
{
    let next = skip_sign(tokens, at, "{")?;
    let (pairs, next) = read_assignments(alloc, tokens, next)?;
    let next = skip_sign(tokens, next, "}")?;
    Ok((pairs, next))
}
