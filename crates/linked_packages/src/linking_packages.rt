//! Packages with the targets of their references (X.722, section 8.4; docs/PROFILE.md, section 12).

ghost use Rattle.std.specs.Prelude.{◌≡◌, ◌≤◌, ℕ, IfOk, length};
ghost use Rattle.std.specs.Prelude.{take, drop};
ghost use Rattle.gdmo_linking.specs.LinkedNames.{first_of};
ghost use Rattle.gdmo_linking.specs.Linkers.{IsLinker, IsOwn, LinksMention};
ghost use Rattle.gdmo_names.specs.ClassViews.{group_rows, package_term, property_words, uses_of};
ghost use Rattle.gdmo_names.specs.FoundViews.{body_term};
ghost use Rattle.gdmo_names.specs.InStep.{AreAll, AreEach};
ghost use Rattle.gdmo_names.specs.LabelMeaning.{reference_token};
ghost use Rattle.gdmo_names.specs.MemberViews.{attribute_reference};
ghost use Rattle.gdmo_names.specs.PartTerms.{PartTerms, body_of};
ghost use Rattle.linked_packages.specs.LinkedPackages.{AreGroupUses, AreUses, IsPackageOf};
ghost use Rattle.linked_packages.specs.PackageTexts.{IsGroupText, IsNamedUse, IsUseText, LinksGroup, LinksUse};
ghost use Rattle.linked_packages.specs.PackageTexts.{added_mentions};

use crate::property_words::{first_word, has_either, has_word};
use gdmo_classes::attribute_use::AttributeUse;
use gdmo_classes::member_use::GroupUse;
use gdmo_classes::package::PackageTemplate;
use gdmo_classes::properties::Properties;
use gdmo_linking::linking::{Linker, number_at};
use gdmo_members::attribute::AttributeReference;
use gdmo_names::found::Found;
use gdmo_names::roles::Role;
use linked_parts::linked::{LinkedGroupUse, LinkedHead, LinkedPackage, LinkedUse};
use std::alloc::AllocError;
use token_grammar::Token;

/// A copy of the first of the properties that is one of two words.
fn copied_word(
    linker: &Linker,
    properties: &Properties,
    one: &str,
    other: &str,
) -> Result<Option<Token>, AllocError>
    ensures { IfOk result (λ x. x ≡ first_of one.now other.now (property_words properties.now)) }
{
    match first_word(properties, one, other) {
        Some(word) => Ok(Some(linker.token(word)?)),
        None => Ok(None),
    }
}

/// The token of a reference to an attribute.
fn attribute_token(reference: &AttributeReference) -> &Token
    ensures { result.now ≡ reference_token (attribute_reference reference.now) }
{
    match reference {
        AttributeReference::Label(reference) => &reference.label,
        AttributeReference::Template(template) => &template.label,
    }
}

/// An attribute of a package.
fn linked_use(
    linker: &Linker,
    attribute: usize,
    own: &AttributeUse,
) -> Result<LinkedUse, AllocError>
    ensures { IfOk result (λ x. (parts : PartTerms) (document : ℕ) → IsLinker parts linker.now →
        IsNamedUse parts own.now → LinksUse parts document own.now attribute → IsUseText parts document own.now x) }
{
    let properties = &own.properties;
    let token = linker.token(attribute_token(&own.attribute))?;
    let default_value = linker.stated_value(&properties.default_value)?;
    let initial_value = linker.stated_value(&properties.initial_value)?;
    let permitted = linker.optional_name(&properties.permitted_values)?;
    let required = linker.optional_name(&properties.required_values)?;
    let add = copied_word(linker, properties, "ADD", "ADD-REMOVE")?;
    let remove = copied_word(linker, properties, "REMOVE", "ADD-REMOVE")?;
    Ok(LinkedUse {
        attribute,
        token,
        default_value,
        initial_value,
        permitted,
        required,
        get: has_either(properties, "GET", "GET-REPLACE"),
        replace: has_either(properties, "REPLACE", "GET-REPLACE"),
        add,
        remove,
        set_to_default: has_word(properties, "REPLACE-WITH-DEFAULT"),
    })
}

/// Attributes of a package, with their places.
fn linked_uses(
    linker: &Linker,
    uses: &[AttributeUse],
    attributes: &[usize],
) -> Result<Vec<LinkedUse>, AllocError>
    ensures { IfOk result (λ xs. (parts : PartTerms) (document : ℕ) → IsLinker parts linker.now →
        AreAll (IsNamedUse parts) uses.now → AreEach (LinksUse parts document) uses.now attributes.now →
        AreEach (IsUseText parts document) uses.now xs.items) }
{
    let mut linked = Vec::new(linker.linkage.alloc);
    for (k, own) in uses.iter().enumerate() {
        linked.push(linked_use(linker, number_at(attributes, k), own)?)?;
    }
    Ok(linked)
}

/// The attributes of a package.
fn package_uses(
    linker: &Linker,
    found: &Found,
    targets: &[Option<usize>],
    text: &PackageTemplate,
) -> Result<Vec<LinkedUse>, AllocError>
    ensures { IfOk result (λ xs. (parts : PartTerms) → IsOwn parts linker.now found.now targets.now →
        body_term found.now.body ≡ body_of (package_term text.now) →
        AreUses parts found.now.document (uses_of text.now.attributes) xs.items) }
{
    match &text.attributes {
        Some(uses) => {
            let attributes = linker.in_role(found, targets, Role::PackageAttribute)?;
            Ok(linked_uses(linker, uses.as_slice(), attributes.as_slice())?)
        }
        None => Ok(Vec::new(linker.linkage.alloc)),
    }
}

/// Copies of so many numbers from a place on.
fn numbers_from(
    linker: &Linker,
    numbers: &[usize],
    from: usize,
    count: usize,
) -> Result<Vec<usize>, AllocError>
    ensures { IfOk result (λ copies. count ≤ length (drop from numbers.now) →
        copies.items ≡ take count (drop from numbers.now)) }
{
    let mut copies = Vec::new(linker.linkage.alloc);
    for k in 0..count {
        copies.push(number_at(numbers, from.saturating_add(k)))?;
    }
    Ok(copies)
}

/// Groups of a package, with their places and those of the attributes behind them.
fn linked_groups(
    linker: &Linker,
    uses: &[GroupUse],
    groups: &[usize],
    added: &[usize],
) -> Result<Vec<LinkedGroupUse>, AllocError>
    ensures { IfOk result (λ xs. (parts : PartTerms) (document : ℕ) →
        AreEach (LinksGroup parts document) uses.now groups.now →
        AreEach (LinksMention parts document) (added_mentions uses.now) added.now →
        AreEach (IsGroupText parts document) uses.now xs.items) }
{
    let mut linked = Vec::new(linker.linkage.alloc);
    let mut next = 0usize;
    for (k, own) in uses.iter().enumerate() {
        let count = own.attributes.as_slice().len();
        let behind = numbers_from(linker, added, next, count)?;
        linked.push(LinkedGroupUse {
            group: number_at(groups, k),
            added: behind,
        })?;
        next = next.saturating_add(count);
    }
    Ok(linked)
}

/// The groups of a package, each with the attributes behind it.
fn package_groups(
    linker: &Linker,
    found: &Found,
    targets: &[Option<usize>],
    text: &PackageTemplate,
) -> Result<Vec<LinkedGroupUse>, AllocError>
    ensures { IfOk result (λ xs. (parts : PartTerms) → IsOwn parts linker.now found.now targets.now →
        body_term found.now.body ≡ body_of (package_term text.now) →
        AreGroupUses parts found.now.document (group_rows text.now.groups) xs.items) }
{
    match &text.groups {
        Some(uses) => {
            let groups = linker.in_role(found, targets, Role::PackageGroup)?;
            let added = linker.in_role(found, targets, Role::AddedAttribute)?;
            Ok(linked_groups(linker, uses.as_slice(), groups.as_slice(), added.as_slice())?)
        }
        None => Ok(Vec::new(linker.linkage.alloc)),
    }
}

/// A package.
pub fn linked_package(
    linker: &Linker,
    found: &Found,
    targets: &[Option<usize>],
    head: LinkedHead,
    text: &PackageTemplate,
) -> Result<LinkedPackage, AllocError>
    ensures head { IfOk result (λ x. x.head ≡ head) }
    ensures is { IfOk result (λ x. (parts : PartTerms) → IsOwn parts linker.now found.now targets.now →
        body_term found.now.body ≡ body_of (package_term text.now) →
        IsPackageOf parts found.now.document (body_term found.now.body) x) }
{
    let attributes = package_uses(linker, found, targets, text)?;
    let groups = package_groups(linker, found, targets, text)?;
    let actions = linker.in_role(found, targets, Role::PackageAction)?;
    let notifications = linker.in_role(found, targets, Role::PackageNotification)?;
    Ok(LinkedPackage {
        head,
        attributes,
        groups,
        actions,
        notifications,
    })
}
