//! Logs are known by their labels: X.721, class log; docs/PROFILE.md. A class that is or derives from the one labelled
//! so is bound where it has the attributes of that class, by label and syntax, in mandatory packages.

ghost use Rattle.std.specs.Prelude.{◌≡◌, ◌&&◌, [], codes, IfOk, flat_map};
ghost use Rattle.std.specs.List.{list_any};
ghost use Rattle.term_values.specs.Syntaxes.TypeSyntax.{Filter, ObjectIdentifier, SetOf};
ghost use Rattle.term_model.specs.declared.packages.Property.{Property};
ghost use Rattle.term_model.specs.BoundClasses.{have_attribute, is_attribute, is_bound_log, is_class_labelled};
ghost use Rattle.term_model.specs.ControlSyntaxes.{administrative_state, availability_status, from_zero};
ghost use Rattle.term_model.specs.ControlSyntaxes.{log_full_action, operational_state, simple_name};
ghost use Rattle.term_model.specs.PresentPackages.{packages_by};
ghost use Rattle.attribute_rules.specs.MandatoryAttributes.{classes_have, have_all_of_log, have_of_top};
ghost use Rattle.attribute_rules.specs.MandatoryAttributes.{have_count_of_log, have_sizes_of_log, have_states_of_log};
ghost use Rattle.attribute_rules.specs.MandatoryAttributes.{have_status_of_log};

use crate::control_syntaxes::{
    administrative_state, availability_status, from_zero, identifiers, log_full_action, of_form,
    operational_state, simple_name,
};
use class_packages::classes_above;
use std::alloc::{AllocError, Global};
use syntax_equality::same_syntax;
use term_model::{AttrRecs, ClassRecs, PackageRec, Property, Set};
use term_values::{Oid, Syntax, SyntaxForm};

/// The record of the attribute has this label and this syntax.
pub fn is_attribute(records: &AttrRecs, label: &[u8], syntax: &Syntax, id: &Oid) -> bool
    ensures { result ≡ is_attribute records.now (label.now, syntax.now) id.now }
{
    match records.find(id) {
        Some(found) => found.label.as_slice() == label && same_syntax(&found.syntax, syntax),
        None => false,
    }
}

/// One of the properties is of such an attribute.
fn is_listed(records: &AttrRecs, label: &[u8], syntax: &Syntax, properties: &[Property]) -> bool
    ensures { result ≡ list_any
        (λ (property : Property). is_attribute records.now (label.now, syntax.now) property.attribute) properties.now }
{
    for property in properties {
        if is_attribute(records, label, syntax, &property.attribute) {
            return true;
        }
    }
    false
}

/// The packages have such an attribute.
pub fn have_attribute(
    records: &AttrRecs,
    label: &[u8],
    syntax: &Syntax,
    packages: &[PackageRec],
) -> bool
    ensures { result ≡ have_attribute records.now packages.now (label.now, syntax.now) }
{
    for of_package in packages {
        if is_listed(
            records,
            label,
            syntax,
            of_package.attributes.items.as_slice(),
        ) {
            return true;
        }
    }
    false
}

/// The mandatory packages of a class have such an attribute.
#[tactic(auto, using(crate::proofs::BoundLaws::mandatory_alone))]
fn class_has(schema: &Set, label: &[u8], syntax: &Syntax, class: &Oid) -> bool
    ensures { result
        ≡ have_attribute schema.now.attributes (packages_by schema.now.classes [] class.now) (label.now, syntax.now) }
{
    match schema.classes.find(class) {
        Some(found) => {
            let packages = found.mandatory.items.as_slice();
            have_attribute(&schema.attributes, label, syntax, packages)
        }
        None => false,
    }
}

/// The mandatory packages of these classes have such an attribute.
#[tactic(auto, unfolding(crate::specs::MandatoryAttributes::classes_have))]
fn classes_have(schema: &Set, label: &[u8], syntax: &Syntax, classes: &[Oid]) -> bool
    ensures { result ≡ classes_have schema.now classes.now label.now syntax.now }
{
    for class in classes {
        if class_has(schema, label, syntax, class) {
            return true;
        }
    }
    false
}

/// The same of a syntax that was made for this.
fn classes_have_one(schema: &Set, label: &[u8], syntax: Syntax, classes: &[Oid]) -> bool
    ensures { result ≡ classes_have schema.now classes.now label.now syntax }
{
    classes_have(schema, label, &syntax, classes)
}

/// The mandatory packages of these classes have the attributes of top.
fn have_of_top(alloc: Global, schema: &Set, classes: &[Oid]) -> Result<bool, AllocError>
    ensures { IfOk result (λ found. found ≡ have_of_top schema.now classes.now) }
{
    if !classes_have_one(schema, b"objectClass", of_form(SyntaxForm::Oid), classes) {
        return Ok(false);
    }
    if !classes_have_one(schema, b"nameBinding", of_form(SyntaxForm::Oid), classes) {
        return Ok(false);
    }
    if !classes_have_one(schema, b"packages", identifiers(alloc)?, classes) {
        return Ok(false);
    }
    Ok(true)
}

/// And numberOfRecords.
#[tactic(auto, unfolding(crate::specs::MandatoryAttributes::have_count_of_log))]
fn have_count_of_log(alloc: Global, schema: &Set, classes: &[Oid]) -> Result<bool, AllocError>
    ensures { IfOk result (λ found. found ≡ have_count_of_log schema.now classes.now) }
{
    if !classes_have_one(schema, b"numberOfRecords", from_zero(alloc)?, classes) {
        return Ok(false);
    }
    have_of_top(alloc, schema, classes)
}

/// And the sizes of a log.
#[tactic(auto, unfolding(crate::specs::MandatoryAttributes::have_sizes_of_log))]
fn have_sizes_of_log(alloc: Global, schema: &Set, classes: &[Oid]) -> Result<bool, AllocError>
    ensures { IfOk result (λ found. found ≡ have_sizes_of_log schema.now classes.now) }
{
    if !classes_have_one(schema, b"maxLogSize", from_zero(alloc)?, classes) {
        return Ok(false);
    }
    if !classes_have_one(schema, b"currentLogSize", from_zero(alloc)?, classes) {
        return Ok(false);
    }
    have_count_of_log(alloc, schema, classes)
}

/// And what tells that a log is full.
#[tactic(auto, unfolding(crate::specs::MandatoryAttributes::have_status_of_log))]
fn have_status_of_log(alloc: Global, schema: &Set, classes: &[Oid]) -> Result<bool, AllocError>
    ensures { IfOk result (λ found. found ≡ have_status_of_log schema.now classes.now) }
{
    if !classes_have_one(
        schema,
        b"availabilityStatus",
        availability_status(alloc)?,
        classes,
    ) {
        return Ok(false);
    }
    if !classes_have_one(schema, b"logFullAction", log_full_action(alloc)?, classes) {
        return Ok(false);
    }
    have_sizes_of_log(alloc, schema, classes)
}

/// And the states of a log.
#[tactic(auto, unfolding(crate::specs::MandatoryAttributes::have_states_of_log))]
fn have_states_of_log(alloc: Global, schema: &Set, classes: &[Oid]) -> Result<bool, AllocError>
    ensures { IfOk result (λ found. found ≡ have_states_of_log schema.now classes.now) }
{
    if !classes_have_one(
        schema,
        b"administrativeState",
        administrative_state(alloc)?,
        classes,
    ) {
        return Ok(false);
    }
    if !classes_have_one(
        schema,
        b"operationalState",
        operational_state(alloc)?,
        classes,
    ) {
        return Ok(false);
    }
    have_status_of_log(alloc, schema, classes)
}

/// And its name and its filter: all attributes of a log.
#[tactic(auto, unfolding(crate::specs::MandatoryAttributes::have_all_of_log))]
fn have_all_of_log(alloc: Global, schema: &Set, classes: &[Oid]) -> Result<bool, AllocError>
    ensures { IfOk result (λ found. found ≡ have_all_of_log schema.now classes.now) }
{
    if !classes_have_one(schema, b"logId", simple_name(alloc)?, classes) {
        return Ok(false);
    }
    if !classes_have_one(
        schema,
        b"discriminatorConstruct",
        of_form(SyntaxForm::Filter),
        classes,
    ) {
        return Ok(false);
    }
    have_states_of_log(alloc, schema, classes)
}

/// The class has this label.
fn is_class_labelled(records: &ClassRecs, label: &[u8], class: &Oid) -> bool
    ensures { result ≡ is_class_labelled records.now label.now class.now }
{
    match records.find(class) {
        Some(found) => found.label.as_slice() == label,
        None => false,
    }
}

/// One of the classes has this label.
fn is_one_labelled(records: &ClassRecs, label: &[u8], classes: &[Oid]) -> bool
    ensures { result ≡ list_any (is_class_labelled records.now label.now) classes.now }
{
    for class in classes {
        if is_class_labelled(records, label, class) {
            return true;
        }
    }
    false
}

/// The objects of a class are logs: it is, or derives from, one with the label `log`, and has the attributes of a log
/// by label and syntax, in mandatory packages.
#[tactic(auto, using(crate::proofs::BoundLaws::all_of_log))]
pub fn is_bound_log(alloc: Global, schema: &Set, class: &Oid) -> Result<bool, AllocError>
    ensures { IfOk result (λ bound. bound ≡ is_bound_log schema.now class.now) }
{
    let classes = classes_above(alloc, &schema.classes, class)?;
    if !is_one_labelled(&schema.classes, b"log", classes.items.as_slice()) {
        return Ok(false);
    }
    have_all_of_log(alloc, schema, classes.items.as_slice())
}
