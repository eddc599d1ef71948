//! The attribute group template (X.722, section 8.8).

ghost use Rattle.std.specs.Prelude.{◌≡◌, ℕ, [], ◌∷◌, codes};
ghost use Rattle.token_grammar.specs.Form.{Form, AnyOrder, Keep, Leaf, Listed, Empty, Maybe, Named, Then};
ghost use Rattle.token_grammar.specs.Outcome.{Reads, closed};
ghost use Rattle.token_grammar.specs.Parts.{either, optional_tree, qualified_name, vector_tree};
ghost use Rattle.token_grammar.specs.Turns.{TakesClause};
ghost use Rattle.token_grammar.specs.TokenTests.{is_string, is_word_of};
ghost use Rattle.gdmo_members.specs.Clauses.{attributes, groups, clause, comma, references, word_clause};
ghost use Rattle.gdmo_members.specs.Templates.{templates, group_clauses};
ghost use Rattle.gdmo_members.specs.Trees.{clause_tree};
ghost use Rattle.gdmo_members.specs.MemberTrees.{attribute_reference_tree, parameter_reference_tree};
ghost use Rattle.gdmo_members.specs.FurtherTrees.{group_tree, group_slots, group_clauses_tree, is_group_clause};
ghost use Rattle.gdmo_members.specs.FurtherTrees.{word_clause_tree};

use super::attribute::{AttributeReference, read_attribute_reference};
use super::registration::read_registered_ending;
use std::alloc::Global;
use token_grammar::clause_ending::end_clause;
use token_grammar::clause_keeping::keep_clause;
use token_grammar::object_identifier::ObjectIdentifier;
use token_grammar::part_keeping::keep_part;
use token_grammar::parts_beside::beside;
use token_grammar::token_reading::{
    place_behind, read_label, read_one_of, read_string, skip_sign, skip_words,
};
use token_grammar::token_tests::is_word_at;
use token_grammar::{SyntaxRefusal, Token};

/// An attribute group template.
#[derive(Drop)]
pub struct GroupTemplate {
    /// The number of its document, which the reader leaves 0.
    pub document: u32,
    /// The group's label.
    pub label: Token,
    /// Its attributes, `GROUP ELEMENTS ref, ..;`.
    pub elements: Option<Vec<AttributeReference>>,
    /// The word FIXED, where the group takes no further attributes.
    pub fixed: Option<Token>,
    /// What the group is, `DESCRIPTION string;`.
    pub description: Option<Token>,
    /// The identifier under which it is registered.
    pub registration: ObjectIdentifier,
}

/// The clauses of a group template that came.
#[derive(Drop)]
struct GroupClauses {
    elements: Option<Vec<AttributeReference>>,
    fixed: Option<Token>,
    description: Option<Token>,
}

/// Reads an attribute group template from the place `at` on, and answers it with the place behind it.
/// `Syntax` has the first token with which the template doesn't go on, or the number of tokens where they
/// end too early; `Memory` comes where there is none for it (X.722, section 8.8).
pub fn read_group(
    alloc: Global,
    tokens: &[Token],
    at: usize,
) -> Result<(GroupTemplate, usize), SyntaxRefusal>
    ensures { Reads tokens.now templates closed (Named groups) at group_tree result }
{
    let (label, next) = read_label(alloc, tokens, at)?;
    let next = skip_words(tokens, next, &["ATTRIBUTE", "GROUP"])?;
    let (clauses, next) = read_group_clauses(alloc, tokens, next)?;
    let (parts, next) = beside(clauses, read_registered_ending(alloc, tokens, next))?;
    let (clauses, registration) = parts;
    Ok((
        GroupTemplate {
            document: 0,
            label,
            elements: clauses.elements,
            fixed: clauses.fixed,
            description: clauses.description,
            registration,
        },
        next,
    ))
}

/// Reads the clauses of a group template, in any order.
fn read_group_clauses(
    alloc: Global,
    tokens: &[Token],
    at: usize,
) -> Result<(GroupClauses, usize), SyntaxRefusal>
    ensures { Reads tokens.now templates is_group_clause (AnyOrder group_clauses) at group_clauses_tree result }
{
    let mut clauses = GroupClauses {
        elements: None,
        fixed: None,
        description: None,
    };
    let mut next = at;
    'turns: while let Some(behind) = read_group_clause(alloc, tokens, next, &mut clauses)? {
        next = behind;
    }
    Ok((clauses, next))
}

/// Reads the next clause of a group template, where one comes that didn't come before.
fn read_group_clause(
    alloc: Global,
    tokens: &[Token],
    at: usize,
    clauses: &mut GroupClauses,
) -> Result<Option<usize>, SyntaxRefusal>
    ensures { TakesClause tokens.now templates is_group_clause (group_slots clauses.old)
        (group_slots clauses.new) at result }
{
    let has_elements = clauses.elements.is_none() & is_word_at(tokens, at, "GROUP");
    if has_elements {
        return keep_clause(
            &mut clauses.elements,
            read_elements_clause(alloc, tokens, at),
        );
    }
    let has_fixed = clauses.fixed.is_none() & is_word_at(tokens, at, "FIXED");
    if has_fixed {
        return keep_clause(&mut clauses.fixed, read_fixed_clause(alloc, tokens, at));
    }
    let has_description = clauses.description.is_none() & is_word_at(tokens, at, "DESCRIPTION");
    if has_description {
        return keep_clause(
            &mut clauses.description,
            read_description_clause(alloc, tokens, at),
        );
    }
    Ok(None)
}

/// Reads references to attributes with commas between them.
fn read_attribute_list(
    alloc: Global,
    tokens: &[Token],
    at: usize,
) -> Result<(Vec<AttributeReference>, usize), SyntaxRefusal>
    ensures { Reads tokens.now templates (either comma (is_word_of (codes "ATTRIBUTE"))) (references attributes) at
        (vector_tree attribute_reference_tree) result }
{
    let mut list = Vec::new(alloc);
    let mut next = at;
    'turns: loop {
        let behind = keep_part(&mut list, read_attribute_reference(alloc, tokens, next))?;
        let Some(place) = place_behind(tokens, behind, ",") else {
            return Ok((list, behind));
        };
        next = place;
    }
}

/// Reads the clause `GROUP ELEMENTS ref, ..;`.
fn read_elements_clause(
    alloc: Global,
    tokens: &[Token],
    at: usize,
) -> Result<(Vec<AttributeReference>, usize), SyntaxRefusal>
    ensures { Reads tokens.now templates closed (clause (codes "GROUP" ∷ codes "ELEMENTS" ∷ []) (references attributes))
        at (clause_tree (vector_tree attribute_reference_tree)) result }
{
    let next = skip_words(tokens, at, &["GROUP", "ELEMENTS"])?;
    end_clause(tokens, read_attribute_list(alloc, tokens, next))
}

/// Reads the clause `FIXED;`.
fn read_fixed_clause(
    alloc: Global,
    tokens: &[Token],
    at: usize,
) -> Result<(Token, usize), SyntaxRefusal>
    ensures { Reads tokens.now templates closed (word_clause (codes "FIXED")) at word_clause_tree result }
{
    let (word, next) = read_one_of(alloc, tokens, at, &["FIXED"])?;
    let next = skip_sign(tokens, next, ";")?;
    Ok((word, next))
}

/// Reads the clause `DESCRIPTION string;`.
fn read_description_clause(
    alloc: Global,
    tokens: &[Token],
    at: usize,
) -> Result<(Token, usize), SyntaxRefusal>
    ensures { Reads tokens.now templates closed (clause (codes "DESCRIPTION" ∷ []) (Keep is_string)) at
        (clause_tree Leaf) result }
{
    let next = skip_words(tokens, at, &["DESCRIPTION"])?;
    end_clause(tokens, read_string(alloc, tokens, next))
}
