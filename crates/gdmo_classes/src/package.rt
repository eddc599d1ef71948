//! The package template (X.722, section 8.4) and references to it.

ghost use Rattle.std.specs.Prelude.{◌≡◌, ℕ, codes};
ghost use Rattle.token_grammar.specs.Form.{AnyOrder, Named, Listed, Empty};
ghost use Rattle.token_grammar.specs.Outcome.{Reads, closed};
ghost use Rattle.token_grammar.specs.Parts.{either, vector_tree};
ghost use Rattle.token_grammar.specs.Turns.{TakesClause};
ghost use Rattle.token_grammar.specs.TokenTests.{is_word_of};
ghost use Rattle.gdmo_members.specs.Clauses.{packages, comma, reference, references};
ghost use Rattle.gdmo_members.specs.Templates.{templates, package_clauses};
ghost use Rattle.gdmo_classes.specs.PackageTrees.{package_tree, package_slots, package_clauses_tree, is_package_clause};
ghost use Rattle.gdmo_classes.specs.PackageTrees.{package_reference_tree};

use super::attribute_use::{AttributeUse, read_attributes_clause};
use super::member_use::{
    ActionUse, GroupUse, NotificationUse, read_actions_clause, read_groups_clause,
    read_notifications_clause,
};
use gdmo_members::behaviour::{BehaviourReference, read_behaviour_clause};
use gdmo_members::registration::read_ending;
use std::alloc::Global;
use token_grammar::clause_keeping::keep_clause;
use token_grammar::label_reference::{LabelReference, read_label_reference};
use token_grammar::object_identifier::ObjectIdentifier;
use token_grammar::part_keeping::keep_part;
use token_grammar::parts_beside::beside;
use token_grammar::token_reading::{place_behind, read_label, skip_words};
use token_grammar::token_tests::{is_template_at, is_word_at};
use token_grammar::{SyntaxRefusal, Token};

/// A package template.
#[derive(Drop)]
pub struct PackageTemplate {
    /// The number of its document, which the reader leaves 0.
    pub document: u32,
    /// The package's label.
    pub label: Token,
    /// Its behaviours, `BEHAVIOUR ref, ..;`.
    pub behaviour: Option<Vec<BehaviourReference>>,
    /// Its attributes, `ATTRIBUTES ref property .., ..;`.
    pub attributes: Option<Vec<AttributeUse>>,
    /// Its attribute groups, `ATTRIBUTE GROUPS ref .., ..;`.
    pub groups: Option<Vec<GroupUse>>,
    /// Its actions, `ACTIONS ref .., ..;`.
    pub actions: Option<Vec<ActionUse>>,
    /// Its notifications, `NOTIFICATIONS ref .., ..;`.
    pub notifications: Option<Vec<NotificationUse>>,
    /// The identifier under which it is registered.
    pub registration: Option<ObjectIdentifier>,
}

/// What names a package.
#[derive(Drop)]
pub enum PackageReference {
    /// Its label.
    Label(LabelReference),
    /// The template itself, in line.
    Template(PackageTemplate),
}

/// The clauses of a package template that came.
#[derive(Drop)]
struct PackageClauses {
    behaviour: Option<Vec<BehaviourReference>>,
    attributes: Option<Vec<AttributeUse>>,
    groups: Option<Vec<GroupUse>>,
    actions: Option<Vec<ActionUse>>,
    notifications: Option<Vec<NotificationUse>>,
}

/// Reads a package template from the place `at` on, and answers it with the place behind it. `Syntax` has
/// the first token with which the template doesn't go on, or the number of tokens where they end too early;
/// `Memory` comes where there is none for it (X.722, section 8.4).
pub fn read_package(
    alloc: Global,
    tokens: &[Token],
    at: usize,
) -> Result<(PackageTemplate, usize), SyntaxRefusal>
    ensures { Reads tokens.now templates closed (Named packages) at package_tree result }
{
    let (label, next) = read_label(alloc, tokens, at)?;
    let next = skip_words(tokens, next, &["PACKAGE"])?;
    let (clauses, next) = read_package_clauses(alloc, tokens, next)?;
    let (parts, next) = beside(clauses, read_ending(alloc, tokens, next))?;
    let (clauses, registration) = parts;
    Ok((
        PackageTemplate {
            document: 0,
            label,
            behaviour: clauses.behaviour,
            attributes: clauses.attributes,
            groups: clauses.groups,
            actions: clauses.actions,
            notifications: clauses.notifications,
            registration,
        },
        next,
    ))
}

/// Reads the clauses of a package template, in any order.
fn read_package_clauses(
    alloc: Global,
    tokens: &[Token],
    at: usize,
) -> Result<(PackageClauses, usize), SyntaxRefusal>
    ensures { Reads tokens.now templates is_package_clause (AnyOrder package_clauses) at package_clauses_tree result }
{
    let mut clauses = PackageClauses {
        behaviour: None,
        attributes: None,
        groups: None,
        actions: None,
        notifications: None,
    };
    let mut next = at;
    'turns: while let Some(behind) = read_package_clause(alloc, tokens, next, &mut clauses)? {
        next = behind;
    }
    Ok((clauses, next))
}

/// Reads the next clause of a package template, where one comes that didn't come before.
fn read_package_clause(
    alloc: Global,
    tokens: &[Token],
    at: usize,
    clauses: &mut PackageClauses,
) -> Result<Option<usize>, SyntaxRefusal>
    ensures { TakesClause tokens.now templates is_package_clause (package_slots clauses.old)
        (package_slots clauses.new) at result }
{
    let has_behaviour = clauses.behaviour.is_none() & is_word_at(tokens, at, "BEHAVIOUR");
    if has_behaviour {
        return keep_clause(
            &mut clauses.behaviour,
            read_behaviour_clause(alloc, tokens, at),
        );
    }
    let has_attributes = clauses.attributes.is_none() & is_word_at(tokens, at, "ATTRIBUTES");
    if has_attributes {
        return keep_clause(
            &mut clauses.attributes,
            read_attributes_clause(alloc, tokens, at),
        );
    }
    let has_groups = clauses.groups.is_none() & is_word_at(tokens, at, "ATTRIBUTE");
    if has_groups {
        return keep_clause(&mut clauses.groups, read_groups_clause(alloc, tokens, at));
    }
    let has_actions = clauses.actions.is_none() & is_word_at(tokens, at, "ACTIONS");
    if has_actions {
        return keep_clause(&mut clauses.actions, read_actions_clause(alloc, tokens, at));
    }
    let has_notifications = clauses.notifications.is_none()
        & is_word_at(tokens, at, "NOTIFICATIONS");
    if has_notifications {
        return keep_clause(
            &mut clauses.notifications,
            read_notifications_clause(alloc, tokens, at),
        );
    }
    Ok(None)
}

/// Reads what names a package: a label, or a template in line where the word PACKAGE is behind it.
pub fn read_package_reference(
    alloc: Global,
    tokens: &[Token],
    at: usize,
) -> Result<(PackageReference, usize), SyntaxRefusal>
    ensures { Reads tokens.now templates (is_word_of (codes "PACKAGE")) (reference packages) at
        package_reference_tree result }
{
    if is_template_at(tokens, at, "PACKAGE") {
        let (template, next) = read_package(alloc, tokens, at)?;
        return Ok((PackageReference::Template(template), next));
    }
    let (label, next) = read_label_reference(alloc, tokens, at)?;
    Ok((PackageReference::Label(label), next))
}

/// Reads references to packages with commas between them.
pub fn read_package_list(
    alloc: Global,
    tokens: &[Token],
    at: usize,
) -> Result<(Vec<PackageReference>, usize), SyntaxRefusal>
    ensures { Reads tokens.now templates (either comma (is_word_of (codes "PACKAGE"))) (references packages) at
        (vector_tree package_reference_tree) result }
{
    let mut list = Vec::new(alloc);
    let mut next = at;
    'turns: loop {
        let behind = keep_part(&mut list, read_package_reference(alloc, tokens, next))?;
        let Some(place) = place_behind(tokens, behind, ",") else {
            return Ok((list, behind));
        };
        next = place;
    }
}
