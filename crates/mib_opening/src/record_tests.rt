//! Which objects are records of a log: X.735, section 8; docs/PROFILE.md, section 15.

ghost use Rattle.std.specs.Prelude.{◌≡◌, IfOk};
ghost use Rattle.std.specs.Prelude.{false};
ghost use Rattle.std.specs.List.{list_any};
ghost use Rattle.std.specs.Option.{option_map_or};
ghost use Rattle.term_model.specs.BoundClasses.{is_class_labelled};
ghost use Rattle.term_model.specs.ClassAttributes.{syntax_of};
ghost use Rattle.term_model.specs.LogRecords.{is_of_label, is_record_name, is_record_of, is_record_part};
ghost use Rattle.term_model.specs.LogRecords.{is_whole_number};

use attribute_rules::labels::is_labelled;
use class_packages::classes_above;
use std::alloc::{AllocError, Global};
use term_model::{ClassRecs, Name, Object, Rdn, Set};
use term_values::{Oid, Syntax, SyntaxForm};

/// The label of the attribute by which records are named.
const RECORD_ID: &[u8] = b"logRecordId";

/// The label of the class of records.
const RECORD: &[u8] = b"eventLogRecord";

/// INTEGER, under any tags.
#[cycle(whole_numbers)]
fn is_whole_number(syntax: &Syntax) -> bool
    ensures { result ≡ is_whole_number syntax.now }
{
    match &syntax.form {
        SyntaxForm::Int(_, _) => true,
        SyntaxForm::Tagged(_, _, of) => is_whole_number(of),
        _ => false,
    }
}

/// The class has this label.
fn is_class_labelled(records: &ClassRecs, label: &[u8], class: &Oid) -> bool
    ensures { result ≡ is_class_labelled records.now label.now class.now }
{
    match records.find(class) {
        Some(found) => found.label.as_slice() == label,
        None => false,
    }
}

/// One of the classes has this label.
fn is_one_labelled(records: &ClassRecs, label: &[u8], classes: &[Oid]) -> bool
    ensures { result ≡ list_any (is_class_labelled records.now label.now) classes.now }
{
    for class in classes {
        if is_class_labelled(records, label, class) {
            return true;
        }
    }
    false
}

/// The class has a label, or derives from one that has it.
fn is_of_label(alloc: Global, schema: &Set, label: &[u8], class: &Oid) -> Result<bool, AllocError>
    ensures { IfOk result (λ found. found ≡ is_of_label schema.now label.now class.now) }
{
    let classes = classes_above(alloc, &schema.classes, class)?;
    Ok(is_one_labelled(&schema.classes, label, classes.items.as_slice()))
}

/// The values of the attribute are whole numbers.
fn has_whole_numbers(schema: &Set, id: &Oid) -> bool
    ensures { result ≡ option_map_or is_whole_number (syntax_of schema.now.attributes id.now) false }
{
    match schema.attributes.find(id) {
        Some(found) => is_whole_number(&found.syntax),
        None => false,
    }
}

/// The part of a name is a whole number of logRecordId.
fn is_record_part(schema: &Set, part: &Rdn) -> bool
    ensures { result ≡ is_record_part schema.now part.now }
{
    is_labelled(&schema.attributes, RECORD_ID, &part.attribute)
        && has_whole_numbers(schema, &part.attribute)
}

/// The name is directly below the log's, and its last part is that of a record.
#[tactic(auto, using(crate::proofs::NameParts::record_name))]
fn is_record_name(schema: &Set, log: &[Rdn], name: &[Rdn]) -> bool
    ensures { result ≡ is_record_name schema.now log.now name.now }
{
    match name.split_last() {
        Some((last, front)) => front == log && is_record_part(schema, last),
        None => false,
    }
}

/// Whether the object of a name is a record of the log.
pub fn is_record_of(
    alloc: Global,
    schema: &Set,
    log: &Name,
    name: &Name,
    object: &Object,
) -> Result<bool, AllocError>
    ensures { IfOk result (λ found. found
        ≡ is_record_of schema.now log.now (record { name = name.now; object = object.now })) }
{
    if !is_record_name(schema, log.parts.as_slice(), name.parts.as_slice()) {
        return Ok(false);
    }
    is_of_label(alloc, schema, RECORD, &object.class)
}
