//! The records of classes and of their packages (X.722, sections 8.3 and 8.4).

ghost use Rattle.std.specs.Prelude.{◌≡◌, List, All, IfOk, OnOk, Some, length, slice_get};
ghost use Rattle.asn1_names.specs.ModuleTerms.{ModuleTerm};
ghost use Rattle.joined_properties.specs.ClassProperties.{ArePropertiesOfAll};
ghost use Rattle.joined_statements.specs.JoinedStatements.{Attributes};
ghost use Rattle.linked_types.specs.PartIdentifiers.{AreEach, IsAttributeId};
ghost use Rattle.package_statements.specs.PackageStatements.{AreStated};
ghost use Rattle.term_model.specs.JoinedProperties.{HasJoined};
ghost use Rattle.term_model.specs.declared.schema.Set.{Set};
ghost use Rattle.schema_records.specs.AddedRecords.{Adds};
ghost use Rattle.schema_records.specs.ApartParts.{AreNoneUnequal, HaveOwnIdentifiers};
ghost use Rattle.schema_records.specs.ClassRecords.{IsClass, IsGroupUse, IsPackage, IsPackageAt};
ghost use Rattle.schema_records.specs.KnownPackages.{AreKnownPackages, IsKnownPackage};
ghost use Rattle.schema_records.specs.MeantParts.{HaveSyntaxes, HaveValues};
ghost use Rattle.schema_records.specs.PropertyRecords.{AreAttributePlaces, AreJoinedProperties, HasJoinedProperties};
ghost use Rattle.schema_records.specs.RegisteredParts.{AreRegisteredParts, HasIdentifier, IsAttributePlace};
ghost use Rattle.schema_records.specs.RegisteredParts.{IsPackagePlace, IsRegisteredClass, IsRegisteredUse};

use crate::identifiers::{action_ids, attribute_ids, class_ids, notification_ids, text_of};
use crate::property_records::{joined_properties, stated_properties};
use joined_properties::Statement;
use joined_statements::JoinedAttributes;
use linked_parts::linked::{LinkedClass, LinkedGroupUse, LinkedPackage};
use linked_types::ClosingParts;
use linked_types::closing_parts::copied;
use std::alloc::AllocError;
use term_model::{ClassRec, ClassRecs, GroupUse, GroupUses, PackageRec, PackageRecs, Properties};
use term_values::Oid;

/// The use of a group.
fn group_use(
    parts: &ClosingParts,
    group: &Oid,
    stated: &LinkedGroupUse,
) -> Result<GroupUse, AllocError>
    ensures group { IfOk result (λ x. x.group ≡ group.now) }
    ensures added { IfOk result (λ x. All (IsAttributePlace parts.now.linked.now) stated.now.added.items →
        AreEach (IsAttributeId parts.now.linked.now) stated.now.added.items x.added) }
{
    Ok(GroupUse {
        group: group.copy(parts.alloc)?,
        added: attribute_ids(parts, stated.added.as_slice())?,
    })
}

/// Appends the use of a group that is registered.
fn push_group_use(
    parts: &ClosingParts,
    stated: &LinkedGroupUse,
    items: &mut Vec<GroupUse>,
) -> Result<(), AllocError>
    ensures { OnOk result (IsRegisteredUse parts.now.linked.now stated.now →
        Adds (IsGroupUse parts.now.linked.now) stated.now items.old.items items.new.items) }
{
    match parts.group_id(stated.group) {
        Some(group) => {
            items.push(group_use(parts, group, stated)?)?;
            Ok(())
        }
        None => Ok(()),
    }
}

/// The uses of groups in a package.
fn group_uses(parts: &ClosingParts, uses: &[LinkedGroupUse]) -> Result<GroupUses, AllocError>
    ensures { IfOk result (λ xs. All (IsRegisteredUse parts.now.linked.now) uses.now →
        AreEach (IsGroupUse parts.now.linked.now) uses.now xs) }
{
    let mut items = Vec::new(parts.alloc);
    for stated in uses {
        push_group_use(parts, stated, &mut items)?;
    }
    Ok(GroupUses { items })
}

/// A package, with what it states.
fn package_record(
    parts: &ClosingParts,
    part: &LinkedPackage,
    statements: &[Statement],
) -> Result<PackageRec, AllocError>
    ensures { IfOk result (λ x. (ms : List ModuleTerm) → IsKnownPackage ms parts.now.linked.now parts.now.table.now
        parts.now.values.now part.now statements.now → IsPackage ms parts.now.linked.now part.now x) }
{
    Ok(PackageRec {
        id: copied(parts.alloc, part.head.identifier.as_ref())?,
        label: text_of(parts.alloc, &part.head.label)?,
        attributes: stated_properties(parts, statements)?,
        groups: group_uses(parts, part.groups.as_slice())?,
        actions: action_ids(parts, part.actions.as_slice())?,
        notifications: notification_ids(parts, part.notifications.as_slice())?,
    })
}

/// What is joined: what each package states, by its place, and the properties of each class.
#[derive(Clone, Copy)]
pub struct JoinedClasses<'j> {
    /// What the packages state.
    pub stated: &'j [Vec<Statement>],
    /// The properties of the classes.
    pub properties: &'j [JoinedAttributes],
}

/// Appends the package at a place, where it is there.
fn push_package(
    parts: &ClosingParts,
    joined: &JoinedClasses,
    place: usize,
    items: &mut Vec<PackageRec>,
) -> Result<(), AllocError>
    ensures { OnOk result ((ms : List ModuleTerm) → AreKnownPackages ms parts.now.linked.now parts.now.table.now
        parts.now.values.now joined.now.stated.now → IsPackagePlace parts.now.linked.now place →
        Adds (IsPackageAt ms parts.now.linked.now) place items.old.items items.new.items) }
{
    match parts.linked.packages.get(place) {
        Some(part) => match joined.stated.get(place) {
            Some(statements) => {
                items.push(package_record(parts, part, statements.as_slice())?)?;
                Ok(())
            }
            None => Ok(()),
        },
        None => Ok(()),
    }
}

/// The packages at these places.
fn package_records(
    parts: &ClosingParts,
    joined: &JoinedClasses,
    places: &[usize],
) -> Result<PackageRecs, AllocError>
    ensures { IfOk result (λ xs. (ms : List ModuleTerm) → AreKnownPackages ms parts.now.linked.now parts.now.table.now
        parts.now.values.now joined.now.stated.now → All (IsPackagePlace parts.now.linked.now) places.now →
        AreEach (IsPackageAt ms parts.now.linked.now) places.now xs) }
{
    let mut items = Vec::new(parts.alloc);
    for place in places {
        push_package(parts, joined, *place, &mut items)?;
    }
    Ok(PackageRecs { items })
}

/// The properties of the class at a place.
fn class_properties(
    parts: &ClosingParts,
    joined: &JoinedClasses,
    place: usize,
) -> Result<Properties, AllocError>
    ensures { IfOk result (λ xs. (attributes : Attributes) →
        slice_get joined.now.properties.now place ≡ Some attributes →
        AreAttributePlaces parts.now.linked.now attributes →
        AreJoinedProperties parts.now.linked.now parts.now.table.now parts.now.values.now attributes xs) }
{
    match joined.properties.get(place) {
        Some(attributes) => joined_properties(parts, attributes),
        None => Ok(Properties {
            items: Vec::new(parts.alloc),
        }),
    }
}

/// The class at a place, which is registered under this identifier.
fn class_record(
    parts: &ClosingParts,
    joined: &JoinedClasses,
    place: usize,
    part: &LinkedClass,
    id: &Oid,
) -> Result<ClassRec, AllocError>
    ensures told { IfOk result (λ x. (ms : List ModuleTerm) → AreKnownPackages ms parts.now.linked.now
        parts.now.table.now parts.now.values.now joined.now.stated.now → part.now.head.identifier ≡ Some id.now →
        IsRegisteredClass parts.now.linked.now part.now → IsClass ms parts.now.linked.now part.now x) }
    ensures properties { IfOk result (λ x. (attributes : Attributes) →
        slice_get joined.now.properties.now place ≡ Some attributes →
        AreAttributePlaces parts.now.linked.now attributes →
        AreJoinedProperties parts.now.linked.now parts.now.table.now parts.now.values.now attributes x.properties) }
{
    Ok(ClassRec {
        id: id.copy(parts.alloc)?,
        label: text_of(parts.alloc, &part.head.label)?,
        superclasses: class_ids(parts, part.superclasses.as_slice())?,
        mandatory: package_records(parts, joined, part.mandatory.as_slice())?,
        conditional: package_records(parts, joined, part.conditional.as_slice())?,
        properties: class_properties(parts, joined, place)?,
    })
}

/// Appends the class at a place, where it is registered.
fn push_class(
    parts: &ClosingParts,
    joined: &JoinedClasses,
    place: usize,
    part: &LinkedClass,
    records: &mut ClassRecs,
) -> Result<(), AllocError>
    ensures told { OnOk result ((ms : List ModuleTerm) → AreKnownPackages ms parts.now.linked.now
        parts.now.table.now parts.now.values.now joined.now.stated.now →
        IsRegisteredClass parts.now.linked.now part.now →
        Adds (IsClass ms parts.now.linked.now) part.now records.old records.new) }
    ensures properties { OnOk result ((attributes : Attributes) → HasIdentifier part.now.head →
        slice_get joined.now.properties.now place ≡ Some attributes →
        AreAttributePlaces parts.now.linked.now attributes →
        Adds (HasJoinedProperties parts.now.linked.now parts.now.table.now parts.now.values.now) attributes
        records.old records.new) }
{
    match &part.head.identifier {
        Some(id) => {
            records.push(parts.alloc, class_record(parts, joined, place, part, id)?)?;
            Ok(())
        }
        None => Ok(()),
    }
}

/// The classes, in the order of their templates.
pub fn class_records(parts: &ClosingParts, joined: &JoinedClasses) -> Result<ClassRecs, AllocError>
    ensures told { IfOk result (λ records. (ms : List ModuleTerm) → AreRegisteredParts parts.now.linked.now →
        HaveSyntaxes ms parts.now.linked.now → HaveValues ms parts.now.linked.now →
        AreStated ms parts.now.linked.now parts.now.table.now parts.now.values.now parts.now.linked.now.packages.items
        joined.now.stated.now → AreEach (IsClass ms parts.now.linked.now) parts.now.linked.now.classes.items records) }
    ensures properties { IfOk result (λ records. AreRegisteredParts parts.now.linked.now →
        length joined.now.properties.now ≡ length parts.now.linked.now.classes.items →
        All (AreAttributePlaces parts.now.linked.now) joined.now.properties.now →
        AreEach (HasJoinedProperties parts.now.linked.now parts.now.table.now parts.now.values.now)
        joined.now.properties.now records) }
    ensures joined { IfOk result (λ records. (ms : List ModuleTerm) (schema : Set) →
        AreRegisteredParts parts.now.linked.now → HaveSyntaxes ms parts.now.linked.now →
        HaveValues ms parts.now.linked.now → HaveOwnIdentifiers parts.now.linked.now →
        AreStated ms parts.now.linked.now parts.now.table.now parts.now.values.now parts.now.linked.now.packages.items
        joined.now.stated.now → ArePropertiesOfAll parts.now.values.now parts.now.linked.now.classes.items
        joined.now.stated.now joined.now.properties.now → AreNoneUnequal joined.now.properties.now →
        schema.classes ≡ records → All (HasJoined schema) records) }
{
    let mut records = ClassRecs::new(parts.alloc);
    for (place, part) in parts.linked.classes.iter().enumerate() {
        push_class(parts, joined, place, part, &mut records)?;
    }
    Ok(records)
}
