//! The notification template (X.722, section 8.11).

ghost use Rattle.std.specs.Prelude.{◌≡◌, ℕ, [], ◌∷◌, codes};
ghost use Rattle.token_grammar.specs.Form.{Form, AnyOrder, Keep, Leaf, Listed, Empty, Maybe, Named, Then};
ghost use Rattle.token_grammar.specs.Outcome.{Reads, closed};
ghost use Rattle.token_grammar.specs.Parts.{either, optional_tree, qualified_name, vector_tree};
ghost use Rattle.token_grammar.specs.Turns.{TakesClause};
ghost use Rattle.token_grammar.specs.TokenTests.{is_string, is_word_of};
ghost use Rattle.gdmo_members.specs.Clauses.{notifications, comma};
ghost use Rattle.gdmo_members.specs.Templates.{templates, notification_clauses, field, fields, information_clause};
ghost use Rattle.gdmo_members.specs.Trees.{clause_tree};
ghost use Rattle.gdmo_members.specs.MemberTrees.{attribute_reference_tree, parameter_reference_tree};
ghost use Rattle.gdmo_members.specs.FurtherTrees.{notification_tree, notification_slots, notification_clauses_tree};
ghost use Rattle.gdmo_members.specs.FurtherTrees.{is_notification_clause, field_tree, fields_tree, information_tree};
ghost use Rattle.gdmo_members.specs.FurtherTrees.{is_field_end};

use super::attribute::{AttributeReference, read_attribute_reference};
use super::behaviour::{BehaviourReference, read_behaviour_clause};
use super::parameter::{ParameterReference, read_parameters_clause};
use super::registration::read_registered_ending;
use super::type_clause::read_type_clause;
use std::alloc::Global;
use token_grammar::clause_ending::end_clause;
use token_grammar::clause_keeping::keep_clause;
use token_grammar::object_identifier::ObjectIdentifier;
use token_grammar::part_keeping::keep_part;
use token_grammar::parts_beside::beside;
use token_grammar::qualified_name::{QualifiedName, read_qualified_name};
use token_grammar::token_reading::{place_behind, read_label, read_name, skip_words};
use token_grammar::token_tests::{is_pair_at, is_word_at};
use token_grammar::{SyntaxRefusal, Token};

/// A component of a notification's information that is an attribute.
#[derive(Drop)]
pub struct Field {
    /// The component's name.
    pub name: Token,
    /// The attribute.
    pub attribute: AttributeReference,
}

/// What a notification sends.
#[derive(Drop)]
pub struct Information {
    /// Its type.
    pub syntax: QualifiedName,
    /// The components that are attributes, `AND ATTRIBUTE IDS field ref, ..`.
    pub fields: Option<Vec<Field>>,
}

/// A notification template.
#[derive(Drop)]
pub struct NotificationTemplate {
    /// The number of its document, which the reader leaves 0.
    pub document: u32,
    /// The notification's label.
    pub label: Token,
    /// Its behaviours, `BEHAVIOUR ref, ..;`.
    pub behaviour: Option<Vec<BehaviourReference>>,
    /// Its parameters, `PARAMETERS ref, ..;`.
    pub parameters: Option<Vec<ParameterReference>>,
    /// What is sent, `WITH INFORMATION SYNTAX Module.Type ..;`.
    pub information: Option<Information>,
    /// The type of what is answered, `WITH REPLY SYNTAX Module.Type;`.
    pub reply: Option<QualifiedName>,
    /// The identifier under which it is registered.
    pub registration: ObjectIdentifier,
}

/// The clauses of a notification template that came.
#[derive(Drop)]
struct NotificationClauses {
    behaviour: Option<Vec<BehaviourReference>>,
    parameters: Option<Vec<ParameterReference>>,
    information: Option<Information>,
    reply: Option<QualifiedName>,
}

/// Reads a notification template from the place `at` on, and answers it with the place behind it. `Syntax`
/// has the first token with which the template doesn't go on, or the number of tokens where they end too
/// early; `Memory` comes where there is none for it (X.722, section 8.11).
pub fn read_notification(
    alloc: Global,
    tokens: &[Token],
    at: usize,
) -> Result<(NotificationTemplate, usize), SyntaxRefusal>
    ensures { Reads tokens.now templates closed (Named notifications) at notification_tree result }
{
    let (label, next) = read_label(alloc, tokens, at)?;
    let next = skip_words(tokens, next, &["NOTIFICATION"])?;
    let (clauses, next) = read_notification_clauses(alloc, tokens, next)?;
    let (parts, next) = beside(clauses, read_registered_ending(alloc, tokens, next))?;
    let (clauses, registration) = parts;
    Ok((
        NotificationTemplate {
            document: 0,
            label,
            behaviour: clauses.behaviour,
            parameters: clauses.parameters,
            information: clauses.information,
            reply: clauses.reply,
            registration,
        },
        next,
    ))
}

/// Reads the clauses of a notification template, in any order.
fn read_notification_clauses(
    alloc: Global,
    tokens: &[Token],
    at: usize,
) -> Result<(NotificationClauses, usize), SyntaxRefusal>
    ensures { Reads tokens.now templates is_notification_clause (AnyOrder notification_clauses) at
        notification_clauses_tree result }
{
    let mut clauses = NotificationClauses {
        behaviour: None,
        parameters: None,
        information: None,
        reply: None,
    };
    let mut next = at;
    'turns: while let Some(behind) = read_notification_clause(alloc, tokens, next, &mut clauses)? {
        next = behind;
    }
    Ok((clauses, next))
}

/// Reads the next clause of a notification template, where one comes that didn't come before.
fn read_notification_clause(
    alloc: Global,
    tokens: &[Token],
    at: usize,
    clauses: &mut NotificationClauses,
) -> Result<Option<usize>, SyntaxRefusal>
    ensures { TakesClause tokens.now templates is_notification_clause (notification_slots clauses.old)
        (notification_slots clauses.new) at result }
{
    let has_behaviour = clauses.behaviour.is_none() & is_word_at(tokens, at, "BEHAVIOUR");
    if has_behaviour {
        return keep_clause(
            &mut clauses.behaviour,
            read_behaviour_clause(alloc, tokens, at),
        );
    }
    let has_parameters = clauses.parameters.is_none() & is_word_at(tokens, at, "PARAMETERS");
    if has_parameters {
        return keep_clause(
            &mut clauses.parameters,
            read_parameters_clause(alloc, tokens, at),
        );
    }
    let is_with = is_word_at(tokens, at, "WITH");
    let is_reply = clauses.reply.is_none() & is_pair_at(tokens, at, "WITH", "REPLY");
    let has_information = clauses.information.is_none() & is_with & !is_reply;
    if has_information {
        return keep_clause(
            &mut clauses.information,
            read_information_clause(alloc, tokens, at),
        );
    }
    let has_reply = clauses.reply.is_none() & is_with;
    if has_reply {
        return keep_clause(
            &mut clauses.reply,
            read_type_clause(alloc, tokens, at, &["WITH", "REPLY", "SYNTAX"]),
        );
    }
    Ok(None)
}

/// Reads a component and the attribute that it is.
fn read_field(alloc: Global, tokens: &[Token], at: usize) -> Result<(Field, usize), SyntaxRefusal>
    ensures { Reads tokens.now templates (is_word_of (codes "ATTRIBUTE")) field at field_tree result }
{
    let (name, next) = read_name(alloc, tokens, at)?;
    let (attribute, next) = read_attribute_reference(alloc, tokens, next)?;
    Ok((Field { name, attribute }, next))
}

/// Reads components with commas between them.
fn read_field_list(
    alloc: Global,
    tokens: &[Token],
    at: usize,
) -> Result<(Vec<Field>, usize), SyntaxRefusal>
    ensures { Reads tokens.now templates (either comma (is_word_of (codes "ATTRIBUTE"))) (Listed comma Empty field) at
        (vector_tree field_tree) result }
{
    let mut list = Vec::new(alloc);
    let mut next = at;
    'turns: loop {
        let behind = keep_part(&mut list, read_field(alloc, tokens, next))?;
        let Some(place) = place_behind(tokens, behind, ",") else {
            return Ok((list, behind));
        };
        next = place;
    }
}

/// Reads `AND ATTRIBUTE IDS field ref, ..` where it comes.
fn read_fields(
    alloc: Global,
    tokens: &[Token],
    at: usize,
) -> Result<(Option<Vec<Field>>, usize), SyntaxRefusal>
    ensures { Reads tokens.now templates is_field_end (Maybe fields) at (optional_tree fields_tree) result }
{
    if !is_word_at(tokens, at, "AND") {
        return Ok((None, at));
    }
    let next = skip_words(tokens, at, &["AND", "ATTRIBUTE", "IDS"])?;
    let (list, next) = read_field_list(alloc, tokens, next)?;
    Ok((Some(list), next))
}

/// Reads the clause `WITH INFORMATION SYNTAX Module.Type [AND ATTRIBUTE IDS field ref, ..];`.
fn read_information_clause(
    alloc: Global,
    tokens: &[Token],
    at: usize,
) -> Result<(Information, usize), SyntaxRefusal>
    ensures { Reads tokens.now templates closed information_clause at (clause_tree information_tree) result }
{
    let next = skip_words(tokens, at, &["WITH", "INFORMATION", "SYNTAX"])?;
    end_clause(tokens, read_information(alloc, tokens, next))
}

/// Reads the type of a notification's information and the attributes that its components are.
fn read_information(
    alloc: Global,
    tokens: &[Token],
    at: usize,
) -> Result<(Information, usize), SyntaxRefusal>
    ensures { Reads tokens.now templates is_field_end (Then qualified_name (Maybe fields)) at information_tree result }
{
    let (syntax, next) = read_qualified_name(alloc, tokens, at)?;
    let (fields, next) = read_fields(alloc, tokens, next)?;
    Ok((Information { syntax, fields }, next))
}
