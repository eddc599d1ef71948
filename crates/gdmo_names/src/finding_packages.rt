//! The templates of packages, and those that stand in line in them (X.722, section 8.4).

ghost use Rattle.std.specs.Prelude.{◌≡◌, [], ◌∷◌, IfOk, OnOk};
ghost use Rattle.gdmo_names.specs.ClassViews.{action_rows, action_terms, group_rows, group_terms, notification_rows};
ghost use Rattle.gdmo_names.specs.ClassViews.{notification_terms, package_reference, package_term, stated_term};
ghost use Rattle.gdmo_names.specs.ClassViews.{use_terms, uses_of};
ghost use Rattle.gdmo_names.specs.DocumentTemplates.{in_rows, in_stated, in_uses};
ghost use Rattle.gdmo_names.specs.FindingSteps.{Finds, FindsTarget, FindsTemplate};
ghost use Rattle.gdmo_names.specs.Mentions.{row_mentions, stated_mentions, use_mentions};
ghost use Rattle.gdmo_names.specs.Mentions.Role.{AddedAttribute, OfParameter, PackageAction, PackageGroup};
ghost use Rattle.gdmo_names.specs.Mentions.Role.{PackageNotification};

use crate::finding_attributes::{
    attribute_target, behaviour_target, find_attributes, find_behaviour_clause, find_parameters,
};
use crate::finding_members::{action_target, group_target, notification_target};
use crate::found::{Body, Finding, Mention, Target};
use crate::roles::Role;
use gdmo_classes::attribute_use::AttributeUse;
use gdmo_classes::member_use::{ActionUse, GroupUse, NotificationUse};
use gdmo_classes::package::{PackageReference, PackageTemplate};
use gdmo_classes::properties::PropertyValue;
use std::alloc::AllocError;

/// DEFAULT VALUE or INITIAL VALUE: the behaviour of DERIVATION RULE.
fn find_stated<'a>(
    finding: &mut Finding<'a>,
    own: &mut Vec<Mention<'a>>,
    value: &'a Option<PropertyValue>,
) -> Result<(), AllocError>
    ensures { OnOk result (Finds finding.old finding.new own.old.items own.new.items
        (in_stated (stated_term value.now)) (stated_mentions (stated_term value.now))) }
{
    match value {
        None => Ok(()),
        Some(PropertyValue::Value(_)) => Ok(()),
        Some(PropertyValue::Rule(reference)) => {
            let target = behaviour_target(finding, reference)?;
            own.push(Mention {
                role: Role::DerivationRule,
                target,
            })?;
            Ok(())
        }
    }
}

fn find_use<'a>(
    finding: &mut Finding<'a>,
    own: &mut Vec<Mention<'a>>,
    x: &'a AttributeUse,
) -> Result<(), AllocError>
    ensures { OnOk result (Finds finding.old finding.new own.old.items own.new.items (in_uses (use_terms (x.now ∷ [])))
        (use_mentions (use_terms (x.now ∷ [])))) }
{
    let target = attribute_target(finding, &x.attribute)?;
    own.push(Mention {
        role: Role::PackageAttribute,
        target,
    })?;
    find_stated(finding, own, &x.properties.default_value)?;
    find_stated(finding, own, &x.properties.initial_value)?;
    find_parameters(finding, own, x.parameters.as_slice())
}

fn find_uses<'a>(
    finding: &mut Finding<'a>,
    own: &mut Vec<Mention<'a>>,
    uses: &'a [AttributeUse],
) -> Result<(), AllocError>
    ensures { OnOk result (Finds finding.old finding.new own.old.items own.new.items (in_uses (use_terms uses.now))
        (use_mentions (use_terms uses.now))) }
{
    for x in uses.iter() {
        find_use(finding, own, x)?;
    }
    Ok(())
}

fn find_uses_clause<'a>(
    finding: &mut Finding<'a>,
    own: &mut Vec<Mention<'a>>,
    uses: &'a Option<Vec<AttributeUse>>,
) -> Result<(), AllocError>
    ensures { OnOk result (Finds finding.old finding.new own.old.items own.new.items (in_uses (uses_of uses.now))
        (use_mentions (uses_of uses.now))) }
{
    match uses {
        Some(uses) => find_uses(finding, own, uses.as_slice()),
        None => Ok(()),
    }
}

fn find_group_use<'a>(
    finding: &mut Finding<'a>,
    own: &mut Vec<Mention<'a>>,
    x: &'a GroupUse,
) -> Result<(), AllocError>
    ensures { OnOk result (Finds finding.old finding.new own.old.items own.new.items
        (in_rows (group_terms (x.now ∷ []))) (row_mentions PackageGroup AddedAttribute (group_terms (x.now ∷ [])))) }
{
    let target = group_target(finding, &x.group)?;
    own.push(Mention {
        role: Role::PackageGroup,
        target,
    })?;
    find_attributes(finding, own, Role::AddedAttribute, x.attributes.as_slice())
}

fn find_group_uses<'a>(
    finding: &mut Finding<'a>,
    own: &mut Vec<Mention<'a>>,
    uses: &'a [GroupUse],
) -> Result<(), AllocError>
    ensures { OnOk result (Finds finding.old finding.new own.old.items own.new.items (in_rows (group_terms uses.now))
        (row_mentions PackageGroup AddedAttribute (group_terms uses.now))) }
{
    for x in uses.iter() {
        find_group_use(finding, own, x)?;
    }
    Ok(())
}

fn find_group_clause<'a>(
    finding: &mut Finding<'a>,
    own: &mut Vec<Mention<'a>>,
    uses: &'a Option<Vec<GroupUse>>,
) -> Result<(), AllocError>
    ensures { OnOk result (Finds finding.old finding.new own.old.items own.new.items (in_rows (group_rows uses.now))
        (row_mentions PackageGroup AddedAttribute (group_rows uses.now))) }
{
    match uses {
        Some(uses) => find_group_uses(finding, own, uses.as_slice()),
        None => Ok(()),
    }
}

fn find_action_use<'a>(
    finding: &mut Finding<'a>,
    own: &mut Vec<Mention<'a>>,
    x: &'a ActionUse,
) -> Result<(), AllocError>
    ensures { OnOk result (Finds finding.old finding.new own.old.items own.new.items
        (in_rows (action_terms (x.now ∷ []))) (row_mentions PackageAction OfParameter (action_terms (x.now ∷ [])))) }
{
    let target = action_target(finding, &x.action)?;
    own.push(Mention {
        role: Role::PackageAction,
        target,
    })?;
    find_parameters(finding, own, x.parameters.as_slice())
}

fn find_action_uses<'a>(
    finding: &mut Finding<'a>,
    own: &mut Vec<Mention<'a>>,
    uses: &'a [ActionUse],
) -> Result<(), AllocError>
    ensures { OnOk result (Finds finding.old finding.new own.old.items own.new.items (in_rows (action_terms uses.now))
        (row_mentions PackageAction OfParameter (action_terms uses.now))) }
{
    for x in uses.iter() {
        find_action_use(finding, own, x)?;
    }
    Ok(())
}

fn find_action_clause<'a>(
    finding: &mut Finding<'a>,
    own: &mut Vec<Mention<'a>>,
    uses: &'a Option<Vec<ActionUse>>,
) -> Result<(), AllocError>
    ensures { OnOk result (Finds finding.old finding.new own.old.items own.new.items (in_rows (action_rows uses.now))
        (row_mentions PackageAction OfParameter (action_rows uses.now))) }
{
    match uses {
        Some(uses) => find_action_uses(finding, own, uses.as_slice()),
        None => Ok(()),
    }
}

fn find_notification_use<'a>(
    finding: &mut Finding<'a>,
    own: &mut Vec<Mention<'a>>,
    x: &'a NotificationUse,
) -> Result<(), AllocError>
    ensures { OnOk result (Finds finding.old finding.new own.old.items own.new.items
        (in_rows (notification_terms (x.now ∷ []))) (row_mentions PackageNotification OfParameter (notification_terms (x.now ∷ [])))) }
{
    let target = notification_target(finding, &x.notification)?;
    own.push(Mention {
        role: Role::PackageNotification,
        target,
    })?;
    find_parameters(finding, own, x.parameters.as_slice())
}

fn find_notification_uses<'a>(
    finding: &mut Finding<'a>,
    own: &mut Vec<Mention<'a>>,
    uses: &'a [NotificationUse],
) -> Result<(), AllocError>
    ensures { OnOk result (Finds finding.old finding.new own.old.items own.new.items (in_rows (notification_terms uses.now))
        (row_mentions PackageNotification OfParameter (notification_terms uses.now))) }
{
    for x in uses.iter() {
        find_notification_use(finding, own, x)?;
    }
    Ok(())
}

fn find_notification_clause<'a>(
    finding: &mut Finding<'a>,
    own: &mut Vec<Mention<'a>>,
    uses: &'a Option<Vec<NotificationUse>>,
) -> Result<(), AllocError>
    ensures { OnOk result (Finds finding.old finding.new own.old.items own.new.items (in_rows (notification_rows uses.now))
        (row_mentions PackageNotification OfParameter (notification_rows uses.now))) }
{
    match uses {
        Some(uses) => find_notification_uses(finding, own, uses.as_slice()),
        None => Ok(()),
    }
}

/// Finds a package's template and those in line in it.
pub fn find_package<'a>(
    finding: &mut Finding<'a>,
    template: &'a PackageTemplate,
) -> Result<usize, AllocError>
    ensures { IfOk result (λ number. FindsTemplate finding.old finding.new number (package_term template.now)) }
{
    let identifier = template.registration.as_ref();
    let number = finding.begin(&template.label, identifier, Body::Package(template))?;
    let mut own = Vec::new(finding.alloc);
    find_behaviour_clause(finding, &mut own, &template.behaviour)?;
    find_uses_clause(finding, &mut own, &template.attributes)?;
    find_group_clause(finding, &mut own, &template.groups)?;
    find_action_clause(finding, &mut own, &template.actions)?;
    find_notification_clause(finding, &mut own, &template.notifications)?;
    finding.end(number, own);
    Ok(number)
}

/// What a reference to a package is.
pub fn package_target<'a>(
    finding: &mut Finding<'a>,
    reference: &'a PackageReference,
) -> Result<Target<'a>, AllocError>
    ensures { IfOk result (λ target. FindsTarget finding.old finding.new target (package_reference reference.now)) }
{
    match reference {
        PackageReference::Label(reference) => Ok(Target::Label(&reference.label)),
        PackageReference::Template(template) => Ok(Target::InLine(find_package(
            finding, template,
        )?)),
    }
}
