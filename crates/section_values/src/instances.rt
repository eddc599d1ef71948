//! The values of instances (docs/PROFILE.md, sections 9 and 18).

ghost use Rattle.std.specs.Prelude.{◌≡◌, ◌++◌, ℕ, List, IfOk, OnOk, option_to_list};
ghost use Rattle.asn1_names.specs.ModuleTerms.{ModuleTerm};
ghost use Rattle.filled_syntaxes.specs.NotedTexts.{NotesTexts};
ghost use Rattle.filled_syntaxes.specs.declared.bad_texts.TextPlace.{TextPlace};
ghost use Rattle.linked_types.specs.KnownParts.{AreClosingParts};
ghost use Rattle.linked_types.specs.PartIdentifiers.{AreEach};
ghost use Rattle.section_values.specs.BadSections.{BadOfInstance, BadOfInstances, BadOfPair, BadOfPairs};
ghost use Rattle.section_values.specs.RegisteredSections.{HaveInstanceSyntaxes};
ghost use Rattle.section_values.specs.SectionRecords.{IsInstance, IsPairValue};
ghost use Rattle.section_values.specs.ToldSections.{HoldsOfEach, IsGoodInstance, IsGoodPair, TellsPair};

use crate::texts::attribute_value;
use filled_syntaxes::BadTexts;
use linked_parts::linked::{LinkedInstance, LinkedPair};
use linked_types::ClosingParts;
use std::alloc::AllocError;
use term_values::Value;

/// The values of an instance, in the order in which they stand.
#[derive(Drop)]
pub struct InstanceValues {
    /// The values of its name.
    pub name: Vec<Value>,
    /// The values behind WITH.
    pub given: Vec<Value>,
}

/// The value of a pair.
fn pair_value(
    parts: &ClosingParts,
    document: u32,
    pair: &LinkedPair,
    bad: &mut BadTexts,
) -> Result<Option<Value>, AllocError>
    ensures told { IfOk result (λ told. (ms : List ModuleTerm) → AreClosingParts ms parts.now →
        TellsPair ms parts.now.linked.now pair.now told) }
    ensures noted { OnOk result ((ms : List ModuleTerm) → AreClosingParts ms parts.now →
        NotesTexts (BadOfPair ms parts.now.linked.now document pair.now) bad.old.first bad.new.first) }
{
    let value = attribute_value(parts, document, pair.attribute, &pair.value, bad)?;
    Ok(value)
}

/// Appends a value, where there is one.
fn push_value(values: &mut Vec<Value>, value: Option<Value>) -> Result<(), AllocError>
    ensures { OnOk result (values.new.items ≡ values.old.items ++ option_to_list value) }
{
    match value {
        Some(value) => {
            values.push(value)?;
            Ok(())
        }
        None => Ok(()),
    }
}

/// The values of pairs.
fn pair_values(
    parts: &ClosingParts,
    document: u32,
    pairs: &[LinkedPair],
    bad: &mut BadTexts,
) -> Result<Vec<Value>, AllocError>
    ensures told { IfOk result (λ values. (ms : List ModuleTerm) → AreClosingParts ms parts.now →
        HoldsOfEach (IsGoodPair ms parts.now.linked.now) pairs.now →
        AreEach (IsPairValue ms parts.now.linked.now) pairs.now values.items) }
    ensures noted { OnOk result ((ms : List ModuleTerm) → AreClosingParts ms parts.now →
        NotesTexts (BadOfPairs ms parts.now.linked.now document pairs.now) bad.old.first bad.new.first) }
{
    let mut values = Vec::new(parts.alloc);
    for pair in pairs {
        let value = pair_value(parts, document, pair, bad)?;
        push_value(&mut values, value)?;
    }
    Ok(values)
}

fn instance_of(
    parts: &ClosingParts,
    instance: &LinkedInstance,
    bad: &mut BadTexts,
) -> Result<InstanceValues, AllocError>
    ensures told { IfOk result (λ values. (ms : List ModuleTerm) → AreClosingParts ms parts.now →
        IsGoodInstance ms parts.now.linked.now instance.now →
        IsInstance ms parts.now.linked.now instance.now values) }
    ensures noted { OnOk result ((ms : List ModuleTerm) → AreClosingParts ms parts.now →
        NotesTexts (BadOfInstance ms parts.now.linked.now instance.now) bad.old.first bad.new.first) }
{
    let document = instance.document;
    let name = pair_values(parts, document, instance.name.as_slice(), bad)?;
    let given = pair_values(parts, document, instance.given.as_slice(), bad)?;
    Ok(InstanceValues { name, given })
}

/// The values of the instances. Notes each text that denotes no value.
pub fn instance_values(
    parts: &ClosingParts,
    bad: &mut BadTexts,
) -> Result<Vec<InstanceValues>, AllocError>
    ensures told { IfOk result (λ values. (ms : List ModuleTerm) → AreClosingParts ms parts.now →
        HaveInstanceSyntaxes ms parts.now.linked.now →
        ((place : TextPlace) → ¬ BadOfInstances ms parts.now.linked.now place) →
        AreEach (IsInstance ms parts.now.linked.now) parts.now.linked.now.instances.items values.items) }
    ensures noted { OnOk result ((ms : List ModuleTerm) → AreClosingParts ms parts.now →
        NotesTexts (BadOfInstances ms parts.now.linked.now) bad.old.first bad.new.first) }
{
    let mut values = Vec::new(parts.alloc);
    for instance in parts.linked.instances.iter() {
        let one = instance_of(parts, instance, bad)?;
        values.push(one)?;
    }
    Ok(values)
}
