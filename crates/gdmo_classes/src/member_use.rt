//! The attribute groups, actions and notifications of a package, each with the references behind it
//! (X.722, section 8.4).

ghost use Rattle.std.specs.Prelude.{◌≡◌, ℕ};
ghost use Rattle.token_grammar.specs.Form.{Listed, Empty};
ghost use Rattle.token_grammar.specs.Outcome.{Reads, closed};
ghost use Rattle.gdmo_members.specs.Clauses.{attributes, parameters, groups, actions, notifications, comma};
ghost use Rattle.gdmo_members.specs.Templates.{templates, member_use};
ghost use Rattle.token_grammar.specs.Parts.{vector_tree};
ghost use Rattle.gdmo_members.specs.Trees.{clause_tree};
ghost use Rattle.gdmo_classes.specs.ClassForms.{is_word_or_string, is_part_end, groups_clause, actions_clause};
ghost use Rattle.gdmo_classes.specs.ClassForms.{notifications_clause};
ghost use Rattle.gdmo_classes.specs.UseTrees.{group_use_tree, action_use_tree, notification_use_tree};

use super::references::{
    ActionReference, GroupReference, NotificationReference, read_action_reference,
    read_group_reference, read_notification_reference,
};
use super::rows::{read_attribute_row, read_parameter_row};
use gdmo_members::attribute::AttributeReference;
use gdmo_members::parameter::ParameterReference;
use std::alloc::Global;
use token_grammar::clause_ending::end_clause;
use token_grammar::part_keeping::keep_part;
use token_grammar::parts_beside::beside;
use token_grammar::token_reading::{place_behind, skip_words};
use token_grammar::{SyntaxRefusal, Token};

/// An attribute group of a package.
#[derive(Drop)]
pub struct GroupUse {
    /// What names the group.
    pub group: GroupReference,
    /// The attributes that are added to it.
    pub attributes: Vec<AttributeReference>,
}

/// An action of a package.
#[derive(Drop)]
pub struct ActionUse {
    /// What names the action.
    pub action: ActionReference,
    /// Its further parameters.
    pub parameters: Vec<ParameterReference>,
}

/// A notification of a package.
#[derive(Drop)]
pub struct NotificationUse {
    /// What names the notification.
    pub notification: NotificationReference,
    /// Its further parameters.
    pub parameters: Vec<ParameterReference>,
}

/// Reads an attribute group and the attributes that are added to it.
fn read_group_use(
    alloc: Global,
    tokens: &[Token],
    at: usize,
) -> Result<(GroupUse, usize), SyntaxRefusal>
    ensures { Reads tokens.now templates is_word_or_string (member_use groups attributes) at group_use_tree result }
{
    let (group, next) = read_group_reference(alloc, tokens, at)?;
    let (parts, next) = beside(group, read_attribute_row(alloc, tokens, next))?;
    let (group, attributes) = parts;
    Ok((GroupUse { group, attributes }, next))
}

/// Reads groups with commas between them.
fn read_group_uses(
    alloc: Global,
    tokens: &[Token],
    at: usize,
) -> Result<(Vec<GroupUse>, usize), SyntaxRefusal>
    ensures { Reads tokens.now templates is_part_end (Listed comma Empty (member_use groups attributes)) at
        (vector_tree group_use_tree) result }
{
    let mut list = Vec::new(alloc);
    let mut next = at;
    'turns: loop {
        let behind = keep_part(&mut list, read_group_use(alloc, tokens, next))?;
        let Some(place) = place_behind(tokens, behind, ",") else {
            return Ok((list, behind));
        };
        next = place;
    }
}

/// Reads the clause `ATTRIBUTE GROUPS ..;`.
pub fn read_groups_clause(
    alloc: Global,
    tokens: &[Token],
    at: usize,
) -> Result<(Vec<GroupUse>, usize), SyntaxRefusal>
    ensures { Reads tokens.now templates closed groups_clause at (clause_tree (vector_tree group_use_tree)) result }
{
    let next = skip_words(tokens, at, &["ATTRIBUTE", "GROUPS"])?;
    end_clause(tokens, read_group_uses(alloc, tokens, next))
}

/// Reads an action and its further parameters.
fn read_action_use(
    alloc: Global,
    tokens: &[Token],
    at: usize,
) -> Result<(ActionUse, usize), SyntaxRefusal>
    ensures { Reads tokens.now templates is_word_or_string (member_use actions parameters) at action_use_tree result }
{
    let (action, next) = read_action_reference(alloc, tokens, at)?;
    let (parts, next) = beside(action, read_parameter_row(alloc, tokens, next))?;
    let (action, parameters) = parts;
    Ok((ActionUse { action, parameters }, next))
}

/// Reads actions with commas between them.
fn read_action_uses(
    alloc: Global,
    tokens: &[Token],
    at: usize,
) -> Result<(Vec<ActionUse>, usize), SyntaxRefusal>
    ensures { Reads tokens.now templates is_part_end (Listed comma Empty (member_use actions parameters)) at
        (vector_tree action_use_tree) result }
{
    let mut list = Vec::new(alloc);
    let mut next = at;
    'turns: loop {
        let behind = keep_part(&mut list, read_action_use(alloc, tokens, next))?;
        let Some(place) = place_behind(tokens, behind, ",") else {
            return Ok((list, behind));
        };
        next = place;
    }
}

/// Reads the clause `ACTIONS ..;`.
pub fn read_actions_clause(
    alloc: Global,
    tokens: &[Token],
    at: usize,
) -> Result<(Vec<ActionUse>, usize), SyntaxRefusal>
    ensures { Reads tokens.now templates closed actions_clause at (clause_tree (vector_tree action_use_tree)) result }
{
    let next = skip_words(tokens, at, &["ACTIONS"])?;
    end_clause(tokens, read_action_uses(alloc, tokens, next))
}

/// Reads a notification and its further parameters.
fn read_notification_use(
    alloc: Global,
    tokens: &[Token],
    at: usize,
) -> Result<(NotificationUse, usize), SyntaxRefusal>
    ensures { Reads tokens.now templates is_word_or_string (member_use notifications parameters) at
        notification_use_tree result }
{
    let (notification, next) = read_notification_reference(alloc, tokens, at)?;
    let (parts, next) = beside(notification, read_parameter_row(alloc, tokens, next))?;
    let (notification, parameters) = parts;
    Ok((
        NotificationUse {
            notification,
            parameters,
        },
        next,
    ))
}

/// Reads notifications with commas between them.
fn read_notification_uses(
    alloc: Global,
    tokens: &[Token],
    at: usize,
) -> Result<(Vec<NotificationUse>, usize), SyntaxRefusal>
    ensures { Reads tokens.now templates is_part_end (Listed comma Empty (member_use notifications parameters)) at
        (vector_tree notification_use_tree) result }
{
    let mut list = Vec::new(alloc);
    let mut next = at;
    'turns: loop {
        let behind = keep_part(&mut list, read_notification_use(alloc, tokens, next))?;
        let Some(place) = place_behind(tokens, behind, ",") else {
            return Ok((list, behind));
        };
        next = place;
    }
}

/// Reads the clause `NOTIFICATIONS ..;`.
pub fn read_notifications_clause(
    alloc: Global,
    tokens: &[Token],
    at: usize,
) -> Result<(Vec<NotificationUse>, usize), SyntaxRefusal>
    ensures { Reads tokens.now templates closed notifications_clause at
        (clause_tree (vector_tree notification_use_tree)) result }
{
    let next = skip_words(tokens, at, &["NOTIFICATIONS"])?;
    end_clause(tokens, read_notification_uses(alloc, tokens, next))
}
