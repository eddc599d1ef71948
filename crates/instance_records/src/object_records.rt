//! The records of instances (docs/PROFILE.md, section 9).

ghost use Rattle.std.specs.Prelude.{◌≡◌, List, All, IfOk, OnOk, Some};
ghost use Rattle.std.specs.Option.{option_copied};
ghost use Rattle.term_values.specs.Typed.{TypedValue};
ghost use Rattle.asn1_names.specs.ModuleTerms.{ModuleTerm};
ghost use Rattle.linked_parts.specs.declared.linked.LinkedPackage.{LinkedPackage};
ghost use Rattle.linked_types.specs.PartIdentifiers.{AreEach, AreIdentified, IsClassId};
ghost use Rattle.section_values.specs.RegisteredSections.{HasIdentifier, IsRegisteredAttribute};
ghost use Rattle.section_values.specs.SectionRecords.{IsInstance, IsPairValue};
ghost use Rattle.section_values.specs.declared.instances.InstanceValues.{InstanceValues as ValueTerms};
ghost use Rattle.schema_records.specs.AddedRecords.{Adds};
ghost use Rattle.schema_records.specs.MemberRecords.{AreAttributes};
ghost use Rattle.instance_records.specs.InstanceRecords.{AreInstanceRecords, IsGiven, IsInstanceRecord};
ghost use Rattle.instance_records.specs.KnownRecords.{AreKnownParts};
ghost use Rattle.instance_records.specs.RegisteredInstances.{AreRegisteredInstances, IsRegisteredInstance};

use crate::instance_parts::{InstanceParts, record_places};
use crate::object_names::{own_name, system_name};
use linked_parts::Linked;
use linked_parts::linked::{LinkedInstance, LinkedPair};
use linked_types::closing_parts::push_id;
use section_values::InstanceValues;
use std::alloc::{AllocError, Global};
use term_model::{AttrRec, AttrRecs, Attribute, Attrs, InstRec, InstRecs, Oids, SystemName};
use term_values::{Oid, Value};

/// A value of an attribute.
fn attribute_of(alloc: Global, template: &AttrRec, value: &Value) -> Result<Attribute, AllocError>
    ensures id { IfOk result (λ given. given.id ≡ template.now.id) }
    ensures value { IfOk result (λ given. given.value ≡ value.now) }
{
    Ok(Attribute {
        id: template.id.copy(alloc)?,
        value: value.copy(alloc)?,
    })
}

/// Appends the value that a pair states, where its attribute is registered and it has a value.
fn push_given(
    parts: &InstanceParts,
    pair: &LinkedPair,
    value: Option<&Value>,
    items: &mut Vec<Attribute>,
) -> Result<(), AllocError>
    ensures { OnOk result ((ms : List ModuleTerm) (denoted : TypedValue) → AreKnownParts ms parts.now →
        IsRegisteredAttribute parts.now.linked.now pair.now.attribute → option_copied value.entry ≡ Some denoted →
        IsPairValue ms parts.now.linked.now pair.now denoted →
        Adds (IsGiven ms parts.now.linked.now) pair.now items.old.items items.new.items) }
{
    let Some(value) = value else {
        return Ok(());
    };
    let Some(found) = parts.attribute_record(pair.attribute) else {
        return Ok(());
    };
    items.push(attribute_of(parts.alloc, found, value)?)?;
    Ok(())
}

/// The values behind WITH, in the order in which they stand.
fn given_of(
    parts: &InstanceParts,
    pairs: &[LinkedPair],
    values: &[Value],
) -> Result<Attrs, AllocError>
    ensures { IfOk result (λ given. (ms : List ModuleTerm) → AreKnownParts ms parts.now →
        All (λ pair. IsRegisteredAttribute parts.now.linked.now pair.attribute) pairs.now →
        AreEach (IsPairValue ms parts.now.linked.now) pairs.now values.now →
        AreEach (IsGiven ms parts.now.linked.now) pairs.now given) }
{
    let mut items = Vec::new(parts.alloc);
    for (place, pair) in pairs.iter().enumerate() {
        push_given(parts, pair, values.get(place), &mut items)?;
    }
    Ok(Attrs { items })
}

/// The packages behind PACKAGES.
fn chosen_of(parts: &InstanceParts, places: &[usize]) -> Result<Oids, AllocError>
    ensures { IfOk result (λ ids.
        All (HasIdentifier (λ (x : LinkedPackage). x.head) parts.now.linked.now.packages.items) places.now →
        AreIdentified (λ (x : LinkedPackage). x.head) parts.now.linked.now.packages.items places.now ids) }
{
    let mut items = Vec::new(parts.alloc);
    for place in places {
        push_id(parts.alloc, &mut items, parts.package_id(*place))?;
    }
    Ok(Oids { items })
}

/// An instance of the class with this identifier.
fn record_of(
    parts: &InstanceParts,
    id: &Oid,
    instance: &LinkedInstance,
    values: &InstanceValues,
) -> Result<InstRec, AllocError>
    ensures { IfOk result (λ x. (ms : List ModuleTerm) → AreKnownParts ms parts.now →
        IsRegisteredInstance parts.now.linked.now instance.now →
        IsInstance ms parts.now.linked.now instance.now values.now →
        IsClassId parts.now.linked.now instance.now.class id.now →
        IsInstanceRecord ms parts.now.linked.now instance.now x) }
{
    let class = id.copy(parts.alloc)?;
    let name = own_name(parts, instance, values)?;
    let chosen = chosen_of(parts, instance.packages.as_slice())?;
    let given = given_of(parts, instance.given.as_slice(), values.given.as_slice())?;
    Ok(InstRec {
        root: instance.is_root,
        class,
        name,
        given,
        chosen,
    })
}

/// Appends the record of an instance, where its class is registered and it has values.
fn push_record(
    parts: &InstanceParts,
    instance: &LinkedInstance,
    values: Option<&InstanceValues>,
    items: &mut Vec<InstRec>,
) -> Result<(), AllocError>
    ensures { OnOk result ((ms : List ModuleTerm) (held : ValueTerms) → AreKnownParts ms parts.now →
        IsRegisteredInstance parts.now.linked.now instance.now → option_copied values.entry ≡ Some held →
        IsInstance ms parts.now.linked.now instance.now held →
        Adds (IsInstanceRecord ms parts.now.linked.now) instance.now items.old.items items.new.items) }
{
    let Some(held) = values else {
        return Ok(());
    };
    let Some(id) = parts.class_id(instance.class) else {
        return Ok(());
    };
    items.push(record_of(parts, id, instance, held)?)?;
    Ok(())
}

/// The instances, each with its values.
fn all_records(parts: &InstanceParts, values: &[InstanceValues]) -> Result<InstRecs, AllocError>
    ensures { IfOk result (λ records. (ms : List ModuleTerm) → AreKnownParts ms parts.now →
        AreRegisteredInstances parts.now.linked.now →
        AreEach (IsInstance ms parts.now.linked.now) parts.now.linked.now.instances.items values.now →
        AreEach (IsInstanceRecord ms parts.now.linked.now) parts.now.linked.now.instances.items records) }
{
    let mut items = Vec::new(parts.alloc);
    for (place, instance) in parts.linked.instances.iter().enumerate() {
        push_record(parts, instance, values.get(place), &mut items)?;
    }
    Ok(InstRecs { items })
}

/// The instances of linked parts, with their values, and the name of the system: that of the first ROOT, and empty
/// where there is none. `records` are those of the attributes of the linked parts.
pub fn instance_records(
    alloc: Global,
    linked: &Linked,
    records: &AttrRecs,
    values: &[InstanceValues],
) -> Result<(InstRecs, SystemName), AllocError>
    ensures { IfOk result (λ both. (ms : List ModuleTerm) →
        AreAttributes ms linked.now 0 linked.now.attributes.items records.now →
        AreEach (IsInstance ms linked.now) linked.now.instances.items values.now →
        AreRegisteredInstances linked.now → AreInstanceRecords ms linked.now both.0 both.1) }
{
    let places = record_places(alloc, linked, records.as_slice())?;
    let parts = InstanceParts {
        alloc,
        linked,
        records: records.as_slice(),
        places: places.as_slice(),
    };
    let instances = all_records(&parts, values)?;
    let system = system_name(&parts, values)?;
    Ok((instances, system))
}
