//! Groups that are FIXED and to which packages add attributes (X.722, sections 8.4 and 8.9; docs/PROFILE.md, section
//! 12).

ghost use Rattle.std.specs.Prelude.{◌≡◌, ◌&&◌, ℕ, Option, Some, slice_get};
ghost use Rattle.gdmo_names.specs.FaultSets.{Notes, OneFault};
ghost use Rattle.gdmo_names.specs.FirstLabelFault.LabelFault.{KindWrong};
ghost use Rattle.gdmo_names.specs.FoundViews.{body_term, found_term, found_view, found_views, numbered};
ghost use Rattle.gdmo_names.specs.GroupFaults.{FaultsOfGroups, has_found_role, is_added_role, is_group_role};
ghost use Rattle.gdmo_names.specs.InStep.{AreEach};
ghost use Rattle.gdmo_names.specs.LabelMeaning.{reference_token};
ghost use Rattle.gdmo_names.specs.Mentions.{Mention as MentionTerm, template_mentions};
ghost use Rattle.gdmo_names.specs.PartTerms.{PartTerms};
ghost use Rattle.gdmo_names.specs.Roles.{role_term};
ghost use Rattle.gdmo_names.specs.TargetTables.{HasMentions, IsMention, TellsMention};
ghost use Rattle.gdmo_names.specs.WrongKinds.{is_fixed};
ghost use Rattle.gdmo_targets.specs.GroupSteps.{IsAddedTo, is_fixed_group};

use crate::labels::{numbered, reference_token};
use gdmo_names::first_fault::{FaultKind, Faults};
use gdmo_names::found::{Body, Found, Mention};
use gdmo_names::roles::Role;

/// Whether a template is a group that is FIXED.
fn is_fixed_body(body: &Body) -> bool
    ensures { result ≡ is_fixed (body_term body.now) }
{
    match body {
        Body::Group(group) => group.fixed.is_some(),
        Body::Class(_)
        | Body::Package(_)
        | Body::Parameter(_)
        | Body::Binding(_)
        | Body::Attribute(_)
        | Body::Behaviour(_)
        | Body::Action(_)
        | Body::Notification(_) => false,
    }
}

/// Whether the template that has a number is a group that is FIXED.
fn is_fixed(templates: &[Found], number: Option<usize>) -> bool
    ensures { result ≡ is_fixed_group (numbered (found_views templates.now) number) }
{
    match numbered(templates, number) {
        Some(template) => is_fixed_body(&template.body),
        None => false,
    }
}

/// Whether a group of a package is named in a role.
fn is_group(role: Role) -> bool
    ensures { result ≡ is_group_role (role_term role) }
{
    match role {
        Role::PackageGroup => true,
        _ => false,
    }
}

/// Whether an attribute is added to a group in a role.
fn is_added(role: Role) -> bool
    ensures { result ≡ is_added_role (role_term role) }
{
    match role {
        Role::AddedAttribute => true,
        _ => false,
    }
}

/// Whether an attribute is added to a group at a place of what a template names.
fn is_added_at(mentions: &[Mention], place: usize) -> bool
    ensures { result ≡ has_found_role is_added_role (slice_get mentions.now place) }
{
    match mentions.get(place) {
        Some(mention) => is_added(mention.role),
        None => false,
    }
}

fn number_at(targets: &[Option<usize>], place: usize) -> Option<usize>
    ensures { (n : Option ℕ) → slice_get targets.now place ≡ Some n → result ≡ n }
{
    match targets.get(place) {
        Some(number) => *number,
        None => None,
    }
}

/// Whether a mention is that of a group that is FIXED and to which an attribute is added.
fn is_added_to_fixed(templates: &[Found], role: Role, number: Option<usize>, added: bool) -> bool
    ensures { result ≡ (added && is_group_role (role_term role))
        && is_fixed_group (numbered (found_views templates.now) number) }
{
    added && is_group(role) && is_fixed(templates, number)
}

/// Notes a group where it is FIXED and an attribute is added to it.
fn note_fixed_group<'a>(
    templates: &[Found<'a>],
    document: u32,
    group: &Mention<'a>,
    number: Option<usize>,
    added: bool,
    faults: &mut Faults,
)
    ensures { (parts : PartTerms) (x : MentionTerm) → IsMention templates.now document group.now x →
        TellsMention parts templates.now document x number →
        Notes (OneFault (IsAddedTo parts document x added) KindWrong document (reference_token x.reference).at)
        faults.old.first faults.new.first }
{
    if is_added_to_fixed(templates, group.role, number, added) {
        if let Some(token) = reference_token(templates, &group.target) {
            faults.note(document, token, FaultKind::WrongKind);
        }
    }
}

/// Notes the groups of a template that are FIXED and to which attributes are added. `targets` are those of its
/// mentions.
pub fn note_fixed_groups<'a>(
    templates: &[Found<'a>],
    found: &Found<'a>,
    targets: &[Option<usize>],
    faults: &mut Faults,
)
    ensures { (parts : PartTerms) → HasMentions templates.now found.now →
        AreEach (TellsMention parts templates.now found.now.document) (template_mentions (found_term found.now))
        targets.now → Notes (FaultsOfGroups parts (found_view found.now)) faults.old.first faults.new.first }
{
    let mentions = found.mentions.as_slice();
    for (place, group) in mentions.iter().enumerate() {
        let added = is_added_at(mentions, place + 1);
        let number = number_at(targets, place);
        note_fixed_group(templates, found.document, group, number, added, faults);
    }
}
