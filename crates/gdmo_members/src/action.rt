//! The action template (X.722, section 8.10).

ghost use Rattle.std.specs.Prelude.{◌≡◌, ℕ, [], ◌∷◌, codes};
ghost use Rattle.token_grammar.specs.Form.{Form, AnyOrder, Keep, Leaf, Listed, Empty, Maybe, Named, Then};
ghost use Rattle.token_grammar.specs.Outcome.{Reads, closed};
ghost use Rattle.token_grammar.specs.Parts.{either, optional_tree, qualified_name, vector_tree};
ghost use Rattle.token_grammar.specs.Turns.{TakesClause};
ghost use Rattle.token_grammar.specs.TokenTests.{is_string, is_word_of};
ghost use Rattle.gdmo_members.specs.Clauses.{actions, flag};
ghost use Rattle.gdmo_members.specs.Templates.{templates, action_clauses};
ghost use Rattle.gdmo_members.specs.Trees.{clause_tree};
ghost use Rattle.gdmo_members.specs.MemberTrees.{attribute_reference_tree, parameter_reference_tree};
ghost use Rattle.gdmo_members.specs.FurtherTrees.{action_tree, action_slots, action_clauses_tree, is_action_clause};

use super::behaviour::{BehaviourReference, read_behaviour_clause};
use super::parameter::{ParameterReference, read_parameters_clause};
use super::registration::read_registered_ending;
use super::type_clause::read_type_clause;
use std::alloc::Global;
use token_grammar::clause_ending::end_clause;
use token_grammar::clause_keeping::keep_clause;
use token_grammar::object_identifier::ObjectIdentifier;
use token_grammar::parts_beside::beside;
use token_grammar::qualified_name::QualifiedName;
use token_grammar::token_reading::{read_label, read_one_of, skip_words};
use token_grammar::token_tests::{is_pair_at, is_word_at};
use token_grammar::{SyntaxRefusal, Token};

/// An action template.
#[derive(Drop)]
pub struct ActionTemplate {
    /// The number of its document, which the reader leaves 0.
    pub document: u32,
    /// The action's label.
    pub label: Token,
    /// Its behaviours, `BEHAVIOUR ref, ..;`.
    pub behaviour: Option<Vec<BehaviourReference>>,
    /// The word CONFIRMED of `MODE CONFIRMED;`.
    pub mode: Option<Token>,
    /// Its parameters, `PARAMETERS ref, ..;`.
    pub parameters: Option<Vec<ParameterReference>>,
    /// The type of what is sent, `WITH INFORMATION SYNTAX Module.Type;`.
    pub information: Option<QualifiedName>,
    /// The type of what is answered, `WITH REPLY SYNTAX Module.Type;`.
    pub reply: Option<QualifiedName>,
    /// The identifier under which it is registered.
    pub registration: ObjectIdentifier,
}

/// The clauses of an action template that came.
#[derive(Drop)]
struct ActionClauses {
    behaviour: Option<Vec<BehaviourReference>>,
    mode: Option<Token>,
    parameters: Option<Vec<ParameterReference>>,
    information: Option<QualifiedName>,
    reply: Option<QualifiedName>,
}

/// Reads an action template from the place `at` on, and answers it with the place behind it. `Syntax` has
/// the first token with which the template doesn't go on, or the number of tokens where they end too early;
/// `Memory` comes where there is none for it (X.722, section 8.10).
pub fn read_action(
    alloc: Global,
    tokens: &[Token],
    at: usize,
) -> Result<(ActionTemplate, usize), SyntaxRefusal>
    ensures { Reads tokens.now templates closed (Named actions) at action_tree result }
{
    let (label, next) = read_label(alloc, tokens, at)?;
    let next = skip_words(tokens, next, &["ACTION"])?;
    let (clauses, next) = read_action_clauses(alloc, tokens, next)?;
    let (parts, next) = beside(clauses, read_registered_ending(alloc, tokens, next))?;
    let (clauses, registration) = parts;
    Ok((
        ActionTemplate {
            document: 0,
            label,
            behaviour: clauses.behaviour,
            mode: clauses.mode,
            parameters: clauses.parameters,
            information: clauses.information,
            reply: clauses.reply,
            registration,
        },
        next,
    ))
}

/// Reads the clauses of an action template, in any order.
fn read_action_clauses(
    alloc: Global,
    tokens: &[Token],
    at: usize,
) -> Result<(ActionClauses, usize), SyntaxRefusal>
    ensures { Reads tokens.now templates is_action_clause (AnyOrder action_clauses) at action_clauses_tree result }
{
    let mut clauses = ActionClauses {
        behaviour: None,
        mode: None,
        parameters: None,
        information: None,
        reply: None,
    };
    let mut next = at;
    'turns: while let Some(behind) = read_action_clause(alloc, tokens, next, &mut clauses)? {
        next = behind;
    }
    Ok((clauses, next))
}

/// Reads the next clause of an action template, where one comes that didn't come before.
fn read_action_clause(
    alloc: Global,
    tokens: &[Token],
    at: usize,
    clauses: &mut ActionClauses,
) -> Result<Option<usize>, SyntaxRefusal>
    ensures { TakesClause tokens.now templates is_action_clause (action_slots clauses.old)
        (action_slots clauses.new) at result }
{
    let has_behaviour = clauses.behaviour.is_none() & is_word_at(tokens, at, "BEHAVIOUR");
    if has_behaviour {
        return keep_clause(
            &mut clauses.behaviour,
            read_behaviour_clause(alloc, tokens, at),
        );
    }
    let has_mode = clauses.mode.is_none() & is_word_at(tokens, at, "MODE");
    if has_mode {
        return keep_clause(&mut clauses.mode, read_mode_clause(alloc, tokens, at));
    }
    let has_parameters = clauses.parameters.is_none() & is_word_at(tokens, at, "PARAMETERS");
    if has_parameters {
        return keep_clause(
            &mut clauses.parameters,
            read_parameters_clause(alloc, tokens, at),
        );
    }
    let is_with = is_word_at(tokens, at, "WITH");
    let is_reply = clauses.reply.is_none() & is_pair_at(tokens, at, "WITH", "REPLY");
    let has_information = clauses.information.is_none() & is_with & !is_reply;
    if has_information {
        return keep_clause(
            &mut clauses.information,
            read_type_clause(alloc, tokens, at, &["WITH", "INFORMATION", "SYNTAX"]),
        );
    }
    let has_reply = clauses.reply.is_none() & is_with;
    if has_reply {
        return keep_clause(
            &mut clauses.reply,
            read_type_clause(alloc, tokens, at, &["WITH", "REPLY", "SYNTAX"]),
        );
    }
    Ok(None)
}

/// Reads the clause `MODE CONFIRMED;`.
fn read_mode_clause(
    alloc: Global,
    tokens: &[Token],
    at: usize,
) -> Result<(Token, usize), SyntaxRefusal>
    ensures { Reads tokens.now templates closed (flag (codes "MODE" ∷ []) (codes "CONFIRMED")) at
        (clause_tree Leaf) result }
{
    let next = skip_words(tokens, at, &["MODE"])?;
    end_clause(tokens, read_one_of(alloc, tokens, next, &["CONFIRMED"]))
}
