//! The behaviour template (X.722, section 8.9), references to it, and the clause that other templates
//! have for it.

ghost use Rattle.std.specs.Prelude.{◌≡◌, ℕ, codes};
ghost use Rattle.token_grammar.specs.Form.{Form, Named};
ghost use Rattle.token_grammar.specs.Outcome.{Reads, closed};
ghost use Rattle.token_grammar.specs.Parts.{either};
ghost use Rattle.token_grammar.specs.TokenTests.{is_word_of};
ghost use Rattle.gdmo_members.specs.Clauses.{behaviours, comma, reference, references, behaviour_clause};
ghost use Rattle.gdmo_members.specs.Templates.{templates};
ghost use Rattle.gdmo_members.specs.Trees.{behaviour_tree, behaviour_reference_tree, behaviour_list_tree, clause_tree};

use std::alloc::Global;
use token_grammar::clause_ending::end_clause;
use token_grammar::label_reference::{LabelReference, read_label_reference};
use token_grammar::part_keeping::keep_part;
use token_grammar::token_reading::{place_behind, read_label, read_string, skip_sign, skip_words};
use token_grammar::token_tests::is_template_at;
use token_grammar::{SyntaxRefusal, Token};

/// A behaviour template, `label BEHAVIOUR DEFINED AS string;`.
#[derive(Drop)]
pub struct BehaviourTemplate {
    /// The number of its document, which the reader leaves 0.
    pub document: u32,
    /// The behaviour's label.
    pub label: Token,
    /// The string that describes the behaviour.
    pub definition: Token,
}

/// What names a behaviour.
#[derive(Drop)]
pub enum BehaviourReference {
    /// Its label.
    Label(LabelReference),
    /// The template itself, in line.
    Template(BehaviourTemplate),
}

/// Reads a behaviour template from the place `at` on, and answers it with the place behind it. `Syntax` has
/// the first token with which the template doesn't go on, or the number of tokens where they end too early;
/// `Memory` comes where there is none for it (X.722, section 8.9).
pub fn read_behaviour(
    alloc: Global,
    tokens: &[Token],
    at: usize,
) -> Result<(BehaviourTemplate, usize), SyntaxRefusal>
    ensures { Reads tokens.now templates closed (Named behaviours) at behaviour_tree result }
{
    let (label, next) = read_label(alloc, tokens, at)?;
    let next = skip_words(tokens, next, &["BEHAVIOUR", "DEFINED", "AS"])?;
    let (definition, next) = read_string(alloc, tokens, next)?;
    let next = skip_sign(tokens, next, ";")?;
    Ok((
        BehaviourTemplate {
            document: 0,
            label,
            definition,
        },
        next,
    ))
}

/// Reads what names a behaviour: a label, or a template in line where the word BEHAVIOUR is behind it.
pub fn read_behaviour_reference(
    alloc: Global,
    tokens: &[Token],
    at: usize,
) -> Result<(BehaviourReference, usize), SyntaxRefusal>
    ensures { Reads tokens.now templates (is_word_of (codes "BEHAVIOUR")) (reference behaviours) at
        behaviour_reference_tree result }
{
    if is_template_at(tokens, at, "BEHAVIOUR") {
        let (template, next) = read_behaviour(alloc, tokens, at)?;
        return Ok((BehaviourReference::Template(template), next));
    }
    let (label, next) = read_label_reference(alloc, tokens, at)?;
    Ok((BehaviourReference::Label(label), next))
}

/// Reads references to behaviours with commas between them.
fn read_behaviour_list(
    alloc: Global,
    tokens: &[Token],
    at: usize,
) -> Result<(Vec<BehaviourReference>, usize), SyntaxRefusal>
    ensures { Reads tokens.now templates (either comma (is_word_of (codes "BEHAVIOUR"))) (references behaviours) at
        behaviour_list_tree result }
{
    let mut list = Vec::new(alloc);
    let mut next = at;
    'turns: loop {
        let behind = keep_part(&mut list, read_behaviour_reference(alloc, tokens, next))?;
        let Some(place) = place_behind(tokens, behind, ",") else {
            return Ok((list, behind));
        };
        next = place;
    }
}

/// Reads the clause `BEHAVIOUR ref, ..;`.
pub fn read_behaviour_clause(
    alloc: Global,
    tokens: &[Token],
    at: usize,
) -> Result<(Vec<BehaviourReference>, usize), SyntaxRefusal>
    ensures { Reads tokens.now templates closed behaviour_clause at (clause_tree behaviour_list_tree) result }
{
    let next = skip_words(tokens, at, &["BEHAVIOUR"])?;
    end_clause(tokens, read_behaviour_list(alloc, tokens, next))
}
