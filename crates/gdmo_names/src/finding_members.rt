//! The templates of attribute groups, actions and notifications, and those that stand in line in them (X.722, sections 8.8,
//! 8.10 and 8.11); and those of members of packages.

ghost use Rattle.std.specs.Prelude.{◌≡◌, IfOk, OnOk};
ghost use Rattle.gdmo_names.specs.ClassViews.{action_reference, group_reference, notification_reference};
ghost use Rattle.gdmo_names.specs.DocumentTemplates.{in_fields};
ghost use Rattle.gdmo_names.specs.FindingSteps.{Finds, FindsRow, FindsTarget, FindsTemplate};
ghost use Rattle.gdmo_names.specs.MemberViews.{action_term, attribute_reference, clause_terms, field_terms};
ghost use Rattle.gdmo_names.specs.MemberViews.{fields_of, group_term, information_fields, notification_term};
ghost use Rattle.gdmo_names.specs.Mentions.{field_mentions};
ghost use Rattle.gdmo_names.specs.Mentions.Role.{GroupElement};
ghost use Rattle.gdmo_names.specs.PartViews.{member_placed};

use crate::finding_attributes::{
    attribute_target, find_attribute, find_attributes, find_behaviour, find_behaviour_clause,
    find_parameter, find_parameter_clause,
};
use crate::found::{Body, Finding, Mention, Target};
use crate::roles::Role;
use gdmo_classes::references::{ActionReference, GroupReference, NotificationReference};
use gdmo_members::attribute::AttributeReference;
use gdmo_members::member::MemberTemplate;
use gdmo_members::notification::{Field, Information};
use gdmo_members::{ActionTemplate, GroupTemplate, NotificationTemplate};
use std::alloc::AllocError;

/// GROUP ELEMENTS.
fn find_elements<'a>(
    finding: &mut Finding<'a>,
    own: &mut Vec<Mention<'a>>,
    elements: &'a Option<Vec<AttributeReference>>,
) -> Result<(), AllocError>
    ensures { OnOk result (FindsRow finding.old finding.new own.old.items own.new.items GroupElement
        (clause_terms attribute_reference elements.now)) }
{
    match elements {
        Some(elements) => find_attributes(finding, own, Role::GroupElement, elements.as_slice()),
        None => Ok(()),
    }
}

fn find_group<'a>(
    finding: &mut Finding<'a>,
    template: &'a GroupTemplate,
) -> Result<usize, AllocError>
    ensures { IfOk result (λ number. FindsTemplate finding.old finding.new number (group_term template.now)) }
{
    let identifier = Some(&template.registration);
    let number = finding.begin(&template.label, identifier, Body::Group(template))?;
    let mut own = Vec::new(finding.alloc);
    find_elements(finding, &mut own, &template.elements)?;
    finding.end(number, own);
    Ok(number)
}

/// What a reference to a group is.
pub fn group_target<'a>(
    finding: &mut Finding<'a>,
    reference: &'a GroupReference,
) -> Result<Target<'a>, AllocError>
    ensures { IfOk result (λ target. FindsTarget finding.old finding.new target (group_reference reference.now)) }
{
    match reference {
        GroupReference::Label(reference) => Ok(Target::Label(&reference.label)),
        GroupReference::Template(template) => Ok(Target::InLine(find_group(finding, template)?)),
    }
}

fn find_action<'a>(
    finding: &mut Finding<'a>,
    template: &'a ActionTemplate,
) -> Result<usize, AllocError>
    ensures { IfOk result (λ number. FindsTemplate finding.old finding.new number (action_term template.now)) }
{
    let identifier = Some(&template.registration);
    let number = finding.begin(&template.label, identifier, Body::Action(template))?;
    let mut own = Vec::new(finding.alloc);
    find_behaviour_clause(finding, &mut own, &template.behaviour)?;
    find_parameter_clause(finding, &mut own, &template.parameters)?;
    finding.end(number, own);
    Ok(number)
}

/// What a reference to an action is.
pub fn action_target<'a>(
    finding: &mut Finding<'a>,
    reference: &'a ActionReference,
) -> Result<Target<'a>, AllocError>
    ensures { IfOk result (λ target. FindsTarget finding.old finding.new target (action_reference reference.now)) }
{
    match reference {
        ActionReference::Label(reference) => Ok(Target::Label(&reference.label)),
        ActionReference::Template(template) => Ok(Target::InLine(find_action(finding, template)?)),
    }
}

/// The attributes of fields.
fn find_fields<'a>(
    finding: &mut Finding<'a>,
    own: &mut Vec<Mention<'a>>,
    fields: &'a [Field],
) -> Result<(), AllocError>
    ensures { OnOk result (Finds finding.old finding.new own.old.items own.new.items
        (in_fields (field_terms fields.now)) (field_mentions (field_terms fields.now))) }
{
    for field in fields.iter() {
        let target = attribute_target(finding, &field.attribute)?;
        own.push(Mention {
            role: Role::FieldAttribute,
            target,
        })?;
    }
    Ok(())
}

/// AND ATTRIBUTE IDS.
fn find_named_fields<'a>(
    finding: &mut Finding<'a>,
    own: &mut Vec<Mention<'a>>,
    fields: &'a Option<Vec<Field>>,
) -> Result<(), AllocError>
    ensures { OnOk result (Finds finding.old finding.new own.old.items own.new.items (in_fields (fields_of fields.now))
        (field_mentions (fields_of fields.now))) }
{
    match fields {
        Some(fields) => find_fields(finding, own, fields.as_slice()),
        None => Ok(()),
    }
}

/// WITH INFORMATION SYNTAX.
fn find_information<'a>(
    finding: &mut Finding<'a>,
    own: &mut Vec<Mention<'a>>,
    information: &'a Option<Information>,
) -> Result<(), AllocError>
    ensures { OnOk result (Finds finding.old finding.new own.old.items own.new.items
        (in_fields (information_fields information.now)) (field_mentions (information_fields information.now))) }
{
    match information {
        Some(information) => find_named_fields(finding, own, &information.fields),
        None => Ok(()),
    }
}

fn find_notification<'a>(
    finding: &mut Finding<'a>,
    template: &'a NotificationTemplate,
) -> Result<usize, AllocError>
    ensures { IfOk result (λ number. FindsTemplate finding.old finding.new number (notification_term template.now)) }
{
    let identifier = Some(&template.registration);
    let number = finding.begin(&template.label, identifier, Body::Notification(template))?;
    let mut own = Vec::new(finding.alloc);
    find_behaviour_clause(finding, &mut own, &template.behaviour)?;
    find_parameter_clause(finding, &mut own, &template.parameters)?;
    find_information(finding, &mut own, &template.information)?;
    finding.end(number, own);
    Ok(number)
}

/// What a reference to a notification is.
pub fn notification_target<'a>(
    finding: &mut Finding<'a>,
    reference: &'a NotificationReference,
) -> Result<Target<'a>, AllocError>
    ensures { IfOk result (λ target. FindsTarget finding.old finding.new target (notification_reference reference.now)) }
{
    match reference {
        NotificationReference::Label(reference) => Ok(Target::Label(&reference.label)),
        NotificationReference::Template(template) => Ok(Target::InLine(find_notification(
            finding, template,
        )?)),
    }
}

/// Finds the template of a member and those in line in it.
pub fn find_member<'a>(
    finding: &mut Finding<'a>,
    template: &'a MemberTemplate,
) -> Result<usize, AllocError>
    ensures { IfOk result (λ number. FindsTemplate finding.old finding.new number
        (member_placed template.now).template) }
{
    match template {
        MemberTemplate::Attribute(template) => find_attribute(finding, template),
        MemberTemplate::Group(template) => find_group(finding, template),
        MemberTemplate::Action(template) => find_action(finding, template),
        MemberTemplate::Notification(template) => find_notification(finding, template),
        MemberTemplate::Parameter(template) => find_parameter(finding, template),
        MemberTemplate::Behaviour(template) => find_behaviour(finding, template),
    }
}

/// The document of a member's template.
pub fn member_document(template: &MemberTemplate) -> u32
    ensures { result ≡ (member_placed template.now).document }
{
    match template {
        MemberTemplate::Attribute(template) => template.document,
        MemberTemplate::Group(template) => template.document,
        MemberTemplate::Action(template) => template.document,
        MemberTemplate::Notification(template) => template.document,
        MemberTemplate::Parameter(template) => template.document,
        MemberTemplate::Behaviour(template) => template.document,
    }
}
