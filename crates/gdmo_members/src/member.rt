//! A template of a package's member: one of the six that stand in a package or in one of its members
//! (X.722, sections 8.5 and 8.7 to 8.11).

ghost use Rattle.std.specs.Prelude.{◌≡◌, ℕ};
ghost use Rattle.token_grammar.specs.Outcome.{Reads, closed};
ghost use Rattle.gdmo_members.specs.Templates.{templates, member};
ghost use Rattle.gdmo_members.specs.MemberTree.{member_tree};

use super::action::{ActionTemplate, read_action};
use super::attribute::{AttributeTemplate, read_attribute};
use super::behaviour::{BehaviourTemplate, read_behaviour};
use super::group::{GroupTemplate, read_group};
use super::notification::{NotificationTemplate, read_notification};
use super::parameter::{ParameterTemplate, read_parameter};
use std::alloc::Global;
use token_grammar::token_tests::{is_pair_template_at, is_template_at};
use token_grammar::{SyntaxRefusal, Token};

/// A template of a package's member.
#[derive(Drop)]
pub enum MemberTemplate {
    /// An attribute template.
    Attribute(AttributeTemplate),
    /// An attribute group template.
    Group(GroupTemplate),
    /// An action template.
    Action(ActionTemplate),
    /// A notification template.
    Notification(NotificationTemplate),
    /// A parameter template.
    Parameter(ParameterTemplate),
    /// A behaviour template.
    Behaviour(BehaviourTemplate),
}

/// Reads a template of a package's member, from the place `at` of the tokens on. Templates may stand in line
/// in it; each has the document number 0.
///
/// The answer is the template and the place behind it. `Syntax` has the place of the first token with which
/// no template goes on, or the number of tokens where they end too early; for a place past the end of the
/// tokens it is that place. `Memory` comes where there is no memory for the template.
pub fn read_template(
    alloc: Global,
    tokens: &[Token],
    at: usize,
) -> Result<(MemberTemplate, usize), SyntaxRefusal>
    ensures { Reads tokens.now templates closed member at member_tree result }
{
    if is_pair_template_at(tokens, at, "ATTRIBUTE", "GROUP") {
        let (group, next) = read_group(alloc, tokens, at)?;
        return Ok((MemberTemplate::Group(group), next));
    }
    if is_template_at(tokens, at, "ATTRIBUTE") {
        let (attribute, next) = read_attribute(alloc, tokens, at)?;
        return Ok((MemberTemplate::Attribute(attribute), next));
    }
    if is_template_at(tokens, at, "PARAMETER") {
        let (parameter, next) = read_parameter(alloc, tokens, at)?;
        return Ok((MemberTemplate::Parameter(parameter), next));
    }
    if is_template_at(tokens, at, "ACTION") {
        let (action, next) = read_action(alloc, tokens, at)?;
        return Ok((MemberTemplate::Action(action), next));
    }
    if is_template_at(tokens, at, "NOTIFICATION") {
        let (notification, next) = read_notification(alloc, tokens, at)?;
        return Ok((MemberTemplate::Notification(notification), next));
    }
    let (behaviour, next) = read_behaviour(alloc, tokens, at)?;
    Ok((MemberTemplate::Behaviour(behaviour), next))
}
