//! The names of instances, each value of a name in its written encoding (X.690).

ghost use Rattle.std.specs.Prelude.{◌≡◌, List, All, IfOk, OnOk, Some};
ghost use Rattle.std.specs.Option.{option_copied};
ghost use Rattle.term_values.specs.Typed.{TypedValue};
ghost use Rattle.term_values.specs.Written.{der};
ghost use Rattle.asn1_names.specs.ModuleTerms.{ModuleTerm};
ghost use Rattle.linked_types.specs.PartIdentifiers.{AreEach};
ghost use Rattle.section_values.specs.RegisteredSections.{IsRegisteredAttribute};
ghost use Rattle.section_values.specs.SectionRecords.{IsInstance, IsPairValue};
ghost use Rattle.section_values.specs.declared.instances.InstanceValues.{InstanceValues as ValueTerms};
ghost use Rattle.schema_records.specs.AddedRecords.{Adds};
ghost use Rattle.instance_records.specs.InstanceRecords.{IsObjectName, IsPart, IsSystemName};
ghost use Rattle.instance_records.specs.KnownRecords.{AreKnownParts};
ghost use Rattle.instance_records.specs.RegisteredInstances.{AreRegisteredInstances, IsRegisteredInstance};

use crate::instance_parts::InstanceParts;
use ber_values::encode_into;
use linked_parts::linked::{LinkedInstance, LinkedPair};
use section_values::InstanceValues;
use std::alloc::{AllocError, Global};
use term_model::{AttrRec, Name, Rdn};
use term_values::{Bytes, Value};

/// The part of a name that is a value of an attribute.
fn part_of(alloc: Global, template: &AttrRec, value: &Value) -> Result<Rdn, AllocError>
    ensures attribute { IfOk result (λ part. part.attribute ≡ template.now.id) }
    ensures value { IfOk result (λ part. part.value ≡ der template.now.syntax value.now) }
{
    let mut octets = Vec::new(alloc);
    encode_into(alloc, &template.syntax, value, &mut octets)?;
    Ok(Rdn {
        attribute: template.id.copy(alloc)?,
        value: Bytes { items: octets },
    })
}

/// Appends the part that a pair states, where its attribute is registered and it has a value.
fn push_part(
    parts: &InstanceParts,
    pair: &LinkedPair,
    value: Option<&Value>,
    rdns: &mut Vec<Rdn>,
) -> Result<(), AllocError>
    ensures { OnOk result ((ms : List ModuleTerm) (denoted : TypedValue) → AreKnownParts ms parts.now →
        IsRegisteredAttribute parts.now.linked.now pair.now.attribute → option_copied value.entry ≡ Some denoted →
        IsPairValue ms parts.now.linked.now pair.now denoted →
        Adds (IsPart ms parts.now.linked.now) pair.now rdns.old.items rdns.new.items) }
{
    let Some(value) = value else {
        return Ok(());
    };
    let Some(found) = parts.attribute_record(pair.attribute) else {
        return Ok(());
    };
    rdns.push(part_of(parts.alloc, found, value)?)?;
    Ok(())
}

/// The name that pairs state.
fn name_of(
    parts: &InstanceParts,
    pairs: &[LinkedPair],
    values: &[Value],
) -> Result<Name, AllocError>
    ensures { IfOk result (λ name. (ms : List ModuleTerm) → AreKnownParts ms parts.now →
        All (λ pair. IsRegisteredAttribute parts.now.linked.now pair.attribute) pairs.now →
        AreEach (IsPairValue ms parts.now.linked.now) pairs.now values.now →
        AreEach (IsPart ms parts.now.linked.now) pairs.now name) }
{
    let mut rdns = Vec::new(parts.alloc);
    for (place, pair) in pairs.iter().enumerate() {
        push_part(parts, pair, values.get(place), &mut rdns)?;
    }
    Ok(Name { parts: rdns })
}

/// The name of an instance in the map of objects: that of a ROOT is empty.
pub(crate) fn own_name(
    parts: &InstanceParts,
    instance: &LinkedInstance,
    values: &InstanceValues,
) -> Result<Name, AllocError>
    ensures { IfOk result (λ name. (ms : List ModuleTerm) → AreKnownParts ms parts.now →
        IsRegisteredInstance parts.now.linked.now instance.now →
        IsInstance ms parts.now.linked.now instance.now values.now →
        IsObjectName ms parts.now.linked.now instance.now.is_root instance.now.name.items name) }
{
    if instance.is_root {
        return Ok(Name::root(parts.alloc));
    }
    name_of(parts, instance.name.as_slice(), values.name.as_slice())
}

/// The name that an instance states.
fn stated_name(
    parts: &InstanceParts,
    instance: &LinkedInstance,
    values: Option<&InstanceValues>,
) -> Result<Name, AllocError>
    ensures { IfOk result (λ name. (ms : List ModuleTerm) (held : ValueTerms) → AreKnownParts ms parts.now →
        IsRegisteredInstance parts.now.linked.now instance.now → option_copied values.entry ≡ Some held →
        IsInstance ms parts.now.linked.now instance.now held →
        AreEach (IsPart ms parts.now.linked.now) instance.now.name.items name) }
{
    match values {
        Some(held) => name_of(parts, instance.name.as_slice(), held.name.as_slice()),
        None => Ok(Name::root(parts.alloc)),
    }
}

/// The name that the first ROOT states; empty where there is none.
pub(crate) fn system_name(
    parts: &InstanceParts,
    values: &[InstanceValues],
) -> Result<Name, AllocError>
    ensures { IfOk result (λ name. (ms : List ModuleTerm) → AreKnownParts ms parts.now →
        AreRegisteredInstances parts.now.linked.now →
        AreEach (IsInstance ms parts.now.linked.now) parts.now.linked.now.instances.items values.now →
        IsSystemName ms parts.now.linked.now name) }
{
    for (place, part) in parts.linked.instances.iter().enumerate() {
        if part.is_root {
            return stated_name(parts, part, values.get(place));
        }
    }
    Ok(Name::root(parts.alloc))
}
