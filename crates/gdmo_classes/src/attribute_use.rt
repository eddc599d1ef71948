//! The attributes of a package, each with its properties and its parameters (X.722, section 8.4).

ghost use Rattle.std.specs.Prelude.{◌≡◌, ℕ};
ghost use Rattle.token_grammar.specs.Form.{Listed, Empty};
ghost use Rattle.token_grammar.specs.Outcome.{Reads, closed};
ghost use Rattle.gdmo_members.specs.Clauses.{comma};
ghost use Rattle.gdmo_members.specs.Templates.{templates, attribute_use};
ghost use Rattle.token_grammar.specs.Parts.{vector_tree};
ghost use Rattle.gdmo_members.specs.Trees.{clause_tree};
ghost use Rattle.gdmo_classes.specs.ClassForms.{is_word_or_string, is_part_end, attributes_clause, use_parts};
ghost use Rattle.gdmo_classes.specs.UseTrees.{attribute_use_tree, use_parts_tree};

use super::properties::{Properties, read_properties};
use super::rows::read_parameter_row;
use gdmo_members::attribute::{AttributeReference, read_attribute_reference};
use gdmo_members::parameter::ParameterReference;
use std::alloc::Global;
use token_grammar::clause_ending::end_clause;
use token_grammar::part_keeping::keep_part;
use token_grammar::parts_beside::beside;
use token_grammar::token_reading::{place_behind, skip_words};
use token_grammar::{SyntaxRefusal, Token};

/// An attribute of a package.
#[derive(Drop)]
pub struct AttributeUse {
    /// What names the attribute.
    pub attribute: AttributeReference,
    /// Its properties.
    pub properties: Properties,
    /// Its further parameters.
    pub parameters: Vec<ParameterReference>,
}

/// Reads the properties of an attribute and its parameters.
fn read_use_parts(
    alloc: Global,
    tokens: &[Token],
    at: usize,
) -> Result<((Properties, Vec<ParameterReference>), usize), SyntaxRefusal>
    ensures { Reads tokens.now templates is_word_or_string use_parts at use_parts_tree result }
{
    let (properties, next) = read_properties(alloc, tokens, at)?;
    beside(properties, read_parameter_row(alloc, tokens, next))
}

/// Reads an attribute, its properties and its parameters.
fn read_attribute_use(
    alloc: Global,
    tokens: &[Token],
    at: usize,
) -> Result<(AttributeUse, usize), SyntaxRefusal>
    ensures { Reads tokens.now templates is_word_or_string attribute_use at attribute_use_tree result }
{
    let (attribute, next) = read_attribute_reference(alloc, tokens, at)?;
    let (parts, next) = beside(attribute, read_use_parts(alloc, tokens, next))?;
    let (attribute, (properties, parameters)) = parts;
    Ok((
        AttributeUse {
            attribute,
            properties,
            parameters,
        },
        next,
    ))
}

/// Reads attributes with commas between them.
fn read_attribute_uses(
    alloc: Global,
    tokens: &[Token],
    at: usize,
) -> Result<(Vec<AttributeUse>, usize), SyntaxRefusal>
    ensures { Reads tokens.now templates is_part_end (Listed comma Empty attribute_use) at
        (vector_tree attribute_use_tree) result }
{
    let mut list = Vec::new(alloc);
    let mut next = at;
    'turns: loop {
        let behind = keep_part(&mut list, read_attribute_use(alloc, tokens, next))?;
        let Some(place) = place_behind(tokens, behind, ",") else {
            return Ok((list, behind));
        };
        next = place;
    }
}

/// Reads the clause `ATTRIBUTES ref property ..;`.
pub fn read_attributes_clause(
    alloc: Global,
    tokens: &[Token],
    at: usize,
) -> Result<(Vec<AttributeUse>, usize), SyntaxRefusal>
    ensures { Reads tokens.now templates closed attributes_clause at
        (clause_tree (vector_tree attribute_use_tree)) result }
{
    let next = skip_words(tokens, at, &["ATTRIBUTES"])?;
    end_clause(tokens, read_attribute_uses(alloc, tokens, next))
}
