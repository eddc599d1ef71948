//! References to attribute groups, actions and notifications, which may stand in line in a package
//! (X.722, section 8.2).

ghost use Rattle.std.specs.Prelude.{◌≡◌, ℕ, codes};
ghost use Rattle.token_grammar.specs.Outcome.{Reads, closed};
ghost use Rattle.token_grammar.specs.TokenTests.{is_word_of};
ghost use Rattle.gdmo_members.specs.Clauses.{groups, actions, notifications, reference};
ghost use Rattle.gdmo_members.specs.Templates.{templates};
ghost use Rattle.gdmo_classes.specs.UseTrees.{group_reference_tree, action_reference_tree, notification_reference_tree};

use gdmo_members::action::{ActionTemplate, read_action};
use gdmo_members::group::{GroupTemplate, read_group};
use gdmo_members::notification::{NotificationTemplate, read_notification};
use std::alloc::Global;
use token_grammar::label_reference::{LabelReference, read_label_reference};
use token_grammar::token_tests::is_template_at;
use token_grammar::{SyntaxRefusal, Token};

/// What names an attribute group.
#[derive(Drop)]
pub enum GroupReference {
    /// Its label.
    Label(LabelReference),
    /// The template itself, in line.
    Template(GroupTemplate),
}

/// What names an action.
#[derive(Drop)]
pub enum ActionReference {
    /// Its label.
    Label(LabelReference),
    /// The template itself, in line.
    Template(ActionTemplate),
}

/// What names a notification.
#[derive(Drop)]
pub enum NotificationReference {
    /// Its label.
    Label(LabelReference),
    /// The template itself, in line.
    Template(NotificationTemplate),
}

/// Reads what names an attribute group: a label, or a template in line where the word ATTRIBUTE is behind it.
pub fn read_group_reference(
    alloc: Global,
    tokens: &[Token],
    at: usize,
) -> Result<(GroupReference, usize), SyntaxRefusal>
    ensures { Reads tokens.now templates (is_word_of (codes "ATTRIBUTE")) (reference groups) at
        group_reference_tree result }
{
    if is_template_at(tokens, at, "ATTRIBUTE") {
        let (template, next) = read_group(alloc, tokens, at)?;
        return Ok((GroupReference::Template(template), next));
    }
    let (label, next) = read_label_reference(alloc, tokens, at)?;
    Ok((GroupReference::Label(label), next))
}

/// Reads what names an action: a label, or a template in line where the word ACTION is behind it.
pub fn read_action_reference(
    alloc: Global,
    tokens: &[Token],
    at: usize,
) -> Result<(ActionReference, usize), SyntaxRefusal>
    ensures { Reads tokens.now templates (is_word_of (codes "ACTION")) (reference actions) at
        action_reference_tree result }
{
    if is_template_at(tokens, at, "ACTION") {
        let (template, next) = read_action(alloc, tokens, at)?;
        return Ok((ActionReference::Template(template), next));
    }
    let (label, next) = read_label_reference(alloc, tokens, at)?;
    Ok((ActionReference::Label(label), next))
}

/// Reads what names a notification: a label, or a template in line where the word NOTIFICATION is behind it.
pub fn read_notification_reference(
    alloc: Global,
    tokens: &[Token],
    at: usize,
) -> Result<(NotificationReference, usize), SyntaxRefusal>
    ensures { Reads tokens.now templates (is_word_of (codes "NOTIFICATION")) (reference notifications) at
        notification_reference_tree result }
{
    if is_template_at(tokens, at, "NOTIFICATION") {
        let (template, next) = read_notification(alloc, tokens, at)?;
        return Ok((NotificationReference::Template(template), next));
    }
    let (label, next) = read_label_reference(alloc, tokens, at)?;
    Ok((NotificationReference::Label(label), next))
}
