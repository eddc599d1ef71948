//! All templates with the targets of their references (X.722, section 8; docs/PROFILE.md, section 12).

ghost use Rattle.std.specs.Prelude.{◌≡◌, ◌++◌, [], ◌∷◌, List, OnOk, Some, slice_get};
ghost use Rattle.gdmo_linking.specs.LinkedNames.{IsHead};
ghost use Rattle.gdmo_linking.specs.Linkers.{IsLinker, IsOwn};
ghost use Rattle.gdmo_names.specs.ClassViews.{binding_term, class_term, package_term};
ghost use Rattle.gdmo_names.specs.DocumentTemplates.{templates};
ghost use Rattle.gdmo_names.specs.FoundViews.{body_term, found_view};
ghost use Rattle.gdmo_names.specs.InStep.{AreAll, AreEach};
ghost use Rattle.gdmo_names.specs.MemberViews.{action_term, attribute_term, group_term, notification_term};
ghost use Rattle.gdmo_names.specs.PartTerms.{Placed, PartTerms, body_of};
ghost use Rattle.linked_packages.specs.LinkedPackages.{IsPackageOf};
ghost use Rattle.linked_templates.specs.LinkedMembers.{IsActionOf, IsAttributeOf, IsBindingOf, IsGroupOf, IsNotificationOf};
ghost use Rattle.linked_templates.specs.LinkedTemplates.{IsClassOf};
ghost use Rattle.linked_templates.specs.TemplateTables.{AreLinkedTemplates, IsComplete, IsRegistered, IsTemplate};
ghost use Rattle.linked_templates.specs.TemplateTables.{KeepsSections};

use crate::linking_classes::{linked_binding, linked_class};
use crate::linking_members::{linked_action, linked_attribute, linked_group, linked_notification};
use gdmo_classes::class::ObjectClassTemplate;
use gdmo_classes::name_binding::NameBindingTemplate;
use gdmo_classes::package::PackageTemplate;
use gdmo_linking::linking::Linker;
use gdmo_members::{ActionTemplate, AttributeTemplate, GroupTemplate, NotificationTemplate};
use gdmo_names::found::{Body, Found};
use linked_packages::linking_packages::linked_package;
use linked_parts::linked::{
    Linked, LinkedAction, LinkedAttribute, LinkedBinding, LinkedClass, LinkedGroup, LinkedHead,
    LinkedNotification, LinkedPackage,
};
use std::alloc::AllocError;
use term_values::Oid;

/// Adds a class.
fn push_class(
    linker: &Linker,
    found: &Found,
    targets: &[Option<usize>],
    head: LinkedHead,
    text: &ObjectClassTemplate,
    classes: &mut Vec<LinkedClass>,
) -> Result<(), AllocError>
    ensures { OnOk result ((parts : PartTerms) (before : List Placed) →
        IsOwn parts linker.now found.now targets.now → body_term found.now.body ≡ body_of (class_term text.now) →
        IsHead parts (found_view found.now) head →
        AreEach (IsTemplate parts (λ x. x.head) (IsClassOf parts)) before classes.old.items →
        AreEach (IsTemplate parts (λ x. x.head) (IsClassOf parts)) (before ++ found_view found.now ∷ [])
        classes.new.items) }
{
    let linked = linked_class(linker, found, targets, head)?;
    classes.push(linked)?;
    Ok(())
}

/// Adds a package.
fn push_package(
    linker: &Linker,
    found: &Found,
    targets: &[Option<usize>],
    head: LinkedHead,
    text: &PackageTemplate,
    packages: &mut Vec<LinkedPackage>,
) -> Result<(), AllocError>
    ensures { OnOk result ((parts : PartTerms) (before : List Placed) →
        IsOwn parts linker.now found.now targets.now → body_term found.now.body ≡ body_of (package_term text.now) →
        IsHead parts (found_view found.now) head →
        AreEach (IsTemplate parts (λ x. x.head) (IsPackageOf parts)) before packages.old.items →
        AreEach (IsTemplate parts (λ x. x.head) (IsPackageOf parts)) (before ++ found_view found.now ∷ [])
        packages.new.items) }
{
    let linked = linked_package(linker, found, targets, head, text)?;
    packages.push(linked)?;
    Ok(())
}

/// Adds a name binding.
fn push_binding(
    linker: &Linker,
    found: &Found,
    targets: &[Option<usize>],
    head: LinkedHead,
    text: &NameBindingTemplate,
    bindings: &mut Vec<LinkedBinding>,
) -> Result<(), AllocError>
    ensures { OnOk result ((parts : PartTerms) (before : List Placed) →
        IsOwn parts linker.now found.now targets.now → body_term found.now.body ≡ body_of (binding_term text.now) →
        IsHead parts (found_view found.now) head →
        AreEach (IsTemplate parts (λ x. x.head) (IsBindingOf parts)) before bindings.old.items →
        AreEach (IsTemplate parts (λ x. x.head) (IsBindingOf parts)) (before ++ found_view found.now ∷ [])
        bindings.new.items) }
{
    let linked = linked_binding(linker, found, targets, head, text)?;
    bindings.push(linked)?;
    Ok(())
}

/// Adds an attribute.
fn push_attribute(
    linker: &Linker,
    found: &Found,
    targets: &[Option<usize>],
    head: LinkedHead,
    text: &AttributeTemplate,
    attributes: &mut Vec<LinkedAttribute>,
) -> Result<(), AllocError>
    ensures { OnOk result ((parts : PartTerms) (before : List Placed) →
        IsOwn parts linker.now found.now targets.now → body_term found.now.body ≡ body_of (attribute_term text.now) →
        IsHead parts (found_view found.now) head →
        AreEach (IsTemplate parts (λ x. x.head) (IsAttributeOf parts)) before attributes.old.items →
        AreEach (IsTemplate parts (λ x. x.head) (IsAttributeOf parts)) (before ++ found_view found.now ∷ [])
        attributes.new.items) }
{
    let linked = linked_attribute(linker, found, targets, head, text)?;
    attributes.push(linked)?;
    Ok(())
}

/// Adds an attribute group.
fn push_group(
    linker: &Linker,
    found: &Found,
    targets: &[Option<usize>],
    head: LinkedHead,
    text: &GroupTemplate,
    groups: &mut Vec<LinkedGroup>,
) -> Result<(), AllocError>
    ensures { OnOk result ((parts : PartTerms) (before : List Placed) →
        IsOwn parts linker.now found.now targets.now → body_term found.now.body ≡ body_of (group_term text.now) →
        IsHead parts (found_view found.now) head →
        AreEach (IsTemplate parts (λ x. x.head) (IsGroupOf parts)) before groups.old.items →
        AreEach (IsTemplate parts (λ x. x.head) (IsGroupOf parts)) (before ++ found_view found.now ∷ [])
        groups.new.items) }
{
    let linked = linked_group(linker, found, targets, head, text)?;
    groups.push(linked)?;
    Ok(())
}

/// Adds an action.
fn push_action(
    linker: &Linker,
    found: &Found,
    targets: &[Option<usize>],
    head: LinkedHead,
    text: &ActionTemplate,
    actions: &mut Vec<LinkedAction>,
) -> Result<(), AllocError>
    ensures { OnOk result ((parts : PartTerms) (before : List Placed) →
        IsOwn parts linker.now found.now targets.now → body_term found.now.body ≡ body_of (action_term text.now) →
        IsHead parts (found_view found.now) head →
        AreEach (IsTemplate parts (λ x. x.head) (IsActionOf parts)) before actions.old.items →
        AreEach (IsTemplate parts (λ x. x.head) (IsActionOf parts)) (before ++ found_view found.now ∷ [])
        actions.new.items) }
{
    let linked = linked_action(linker, found, head, text)?;
    actions.push(linked)?;
    Ok(())
}

/// Adds a notification.
fn push_notification(
    linker: &Linker,
    found: &Found,
    targets: &[Option<usize>],
    head: LinkedHead,
    text: &NotificationTemplate,
    notifications: &mut Vec<LinkedNotification>,
) -> Result<(), AllocError>
    ensures { OnOk result ((parts : PartTerms) (before : List Placed) →
        IsOwn parts linker.now found.now targets.now → body_term found.now.body ≡ body_of (notification_term text.now) →
        IsHead parts (found_view found.now) head →
        AreEach (IsTemplate parts (λ x. x.head) (IsNotificationOf parts)) before notifications.old.items →
        AreEach (IsTemplate parts (λ x. x.head) (IsNotificationOf parts)) (before ++ found_view found.now ∷ [])
        notifications.new.items) }
{
    let linked = linked_notification(linker, found, targets, head, text)?;
    notifications.push(linked)?;
    Ok(())
}

/// Links a template with its head.
fn link_headed(
    linker: &Linker,
    found: &Found,
    targets: &[Option<usize>],
    head: LinkedHead,
    linked: &mut Linked,
) -> Result<(), AllocError>
    ensures tables { OnOk result ((parts : PartTerms) (before : List Placed) →
        IsOwn parts linker.now found.now targets.now → IsHead parts (found_view found.now) head →
        AreLinkedTemplates parts before linked.old →
        AreLinkedTemplates parts (before ++ found_view found.now ∷ []) linked.new) }
    ensures keeps { OnOk result (KeepsSections linked.old linked.new) }
{
    match found.body {
        Body::Class(text) => {
            push_class(linker, found, targets, head, text, &mut linked.classes)?;
            Ok(())
        }
        Body::Package(text) => {
            push_package(linker, found, targets, head, text, &mut linked.packages)?;
            Ok(())
        }
        Body::Binding(text) => {
            push_binding(linker, found, targets, head, text, &mut linked.bindings)?;
            Ok(())
        }
        Body::Attribute(text) => {
            push_attribute(linker, found, targets, head, text, &mut linked.attributes)?;
            Ok(())
        }
        Body::Group(text) => {
            push_group(linker, found, targets, head, text, &mut linked.groups)?;
            Ok(())
        }
        Body::Action(text) => {
            push_action(linker, found, targets, head, text, &mut linked.actions)?;
            Ok(())
        }
        Body::Notification(text) => {
            push_notification(
                linker,
                found,
                targets,
                head,
                text,
                &mut linked.notifications,
            )?;
            Ok(())
        }
        Body::Parameter(_) => Ok(()),
        Body::Behaviour(_) => Ok(()),
    }
}

/// Links a template that is registered under an identifier, where it is.
fn link_template(
    linker: &Linker,
    found: &Found,
    targets: &[Option<usize>],
    identifier: &Option<Oid>,
    linked: &mut Linked,
) -> Result<(), AllocError>
    ensures tables { OnOk result ((parts : PartTerms) (before : List Placed) →
        IsOwn parts linker.now found.now targets.now → IsRegistered parts (found_view found.now) identifier.now →
        AreLinkedTemplates parts before linked.old →
        AreLinkedTemplates parts (before ++ found_view found.now ∷ []) linked.new) }
    ensures keeps { OnOk result (KeepsSections linked.old linked.new) }
{
    let head = linker.head(found, identifier)?;
    link_headed(linker, found, targets, head, linked)
}

/// Links the template with a number.
fn link_numbered(
    linker: &Linker,
    number: usize,
    found: &Found,
    identifiers: &[Option<Oid>],
    linked: &mut Linked,
) -> Result<(), AllocError>
    ensures tables { OnOk result ((parts : PartTerms) (before : List Placed) → IsLinker parts linker.now →
        AreAll (IsComplete parts) (templates parts) →
        AreEach (IsRegistered parts) (templates parts) identifiers.now →
        slice_get linker.now.linkage.templates.now number ≡ Some found.now →
        AreLinkedTemplates parts before linked.old →
        AreLinkedTemplates parts (before ++ found_view found.now ∷ []) linked.new) }
    ensures keeps { OnOk result (KeepsSections linked.old linked.new) }
{
    match linker.linkage.targets.get(number) {
        Some(own) => match identifiers.get(number) {
            Some(identifier) => {
                link_template(linker, found, own.as_slice(), identifier, linked)?;
                Ok(())
            }
            None => Ok(()),
        },
        None => Ok(()),
    }
}

/// Links the templates. `identifiers` has those under which they are registered, in their order.
pub fn link_templates(
    linker: &Linker,
    identifiers: &[Option<Oid>],
    linked: &mut Linked,
) -> Result<(), AllocError>
    ensures tables { OnOk result ((parts : PartTerms) → IsLinker parts linker.now →
        AreAll (IsComplete parts) (templates parts) →
        AreEach (IsRegistered parts) (templates parts) identifiers.now →
        AreLinkedTemplates parts [] linked.old → AreLinkedTemplates parts (templates parts) linked.new) }
    ensures keeps { OnOk result (KeepsSections linked.old linked.new) }
{
    let templates = linker.linkage.templates;
    for (number, found) in templates.iter().enumerate() {
        link_numbered(linker, number, found, identifiers, linked)?;
    }
    Ok(())
}
