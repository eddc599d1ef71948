//! The whole text of a schema, and how it is written (docs/PROFILE.md, section 19).

ghost use Rattle.std.specs.Prelude.{◌≡◌, ◌≢◌, ◌≤◌, ◌++◌, Err, IfOk, OnOk, flat_map, map};
ghost use Rattle.agent_bytes.specs.Faults.{Rose};
ghost use Rattle.agent_bytes.specs.Told.{GainsPart, gained};
ghost use Rattle.term_model.specs.declared.name_binding.BindRec.{BindRec};
ghost use Rattle.term_model.specs.declared.schema.ClassRec.{ClassRec};
ghost use Rattle.set_report.specs.declared.refusal.ReportRefusal.{ReportRefusal};
ghost use Rattle.set_report.specs.DoneLists.{AreDone};
ghost use Rattle.set_report.specs.NamesSchema.{NamesSchema};
ghost use Rattle.set_report.specs.Orders.{in_order};
ghost use Rattle.set_report.specs.ReportText.{binding_lines, bound_lines, class_text_of, class_texts, report_text};

use crate::class_text::write_class;
use crate::labels::{SchemaLabels, labels_of_bindings, schema_labels};
use crate::lines::{write_bound, write_lines};
use crate::list_tables::{ListTable, list_table};
use crate::orders::ids_in_order;
use crate::refusal::ReportRefusal;
use agent_bytes::{Sink, write_all};
use bound_classes::{has_bound_discriminator, has_bound_log};
use std::alloc::{AllocError, Global};
use term_model::{BindRec, ClassRec, Set};
use term_values::Oid;

/// The identifiers of classes in rising order, each once.
fn class_ids(alloc: Global, classes: &[ClassRec]) -> Result<Vec<Oid>, AllocError>
    ensures { IfOk result (λ found. found.items
        ≡ in_order (map (λ (of_class : ClassRec). of_class.id) classes.now)) }
{
    let mut ids = Vec::new(alloc);
    for of_class in classes {
        ids.push(of_class.id.copy(alloc)?)?;
    }
    ids_in_order(ids)
}

/// The identifiers of name bindings in rising order, each once.
fn binding_ids(alloc: Global, bindings: &[BindRec]) -> Result<Vec<Oid>, AllocError>
    ensures { IfOk result (λ found. found.items
        ≡ in_order (map (λ (binding : BindRec). binding.id) bindings.now)) }
{
    let mut ids = Vec::new(alloc);
    for binding in bindings {
        ids.push(binding.id.copy(alloc)?)?;
    }
    ids_in_order(ids)
}

/// Appends the lines of the class with an identifier, where that has a record.
fn write_class_of(
    alloc: Global,
    schema: &Set,
    labels: &SchemaLabels,
    table: &ListTable,
    id: &Oid,
    into: &mut Vec<u8>,
) -> Result<(), AllocError>
    requires names { NamesSchema schema.now labels.now }
    requires table { AreDone schema.now.classes table.now }
    ensures { OnOk result (into.new.items ≡ into.old.items ++ class_text_of schema.now id.now) }
{
    match schema.classes.find(id) {
        Some(of_class) => write_class(alloc, schema, labels, table, of_class, into),
        None => Ok(()),
    }
}

/// Appends the lines of classes.
fn write_each_class(
    alloc: Global,
    schema: &Set,
    labels: &SchemaLabels,
    table: &ListTable,
    ids: &[Oid],
    into: &mut Vec<u8>,
) -> Result<(), AllocError>
    requires names { NamesSchema schema.now labels.now }
    requires table { AreDone schema.now.classes table.now }
    ensures { OnOk result (into.new.items ≡ into.old.items ++ flat_map (class_text_of schema.now) ids.now) }
{
    for id in ids {
        write_class_of(alloc, schema, labels, table, id, into)?;
    }
    Ok(())
}

/// Appends the lines of the classes.
#[tactic(auto, unfolding(crate::specs::ReportText::class_texts))]
fn write_classes(alloc: Global, schema: &Set, into: &mut Vec<u8>) -> Result<(), AllocError>
    ensures { OnOk result (into.new.items ≡ into.old.items ++ class_texts schema.now) }
{
    let labels = schema_labels(alloc, schema)?;
    let table = list_table(alloc, &schema.classes)?;
    let ids = class_ids(alloc, schema.classes.as_slice())?;
    write_each_class(alloc, schema, &labels, &table, ids.as_slice(), into)
}

/// Appends the lines of the name bindings.
fn write_bindings(alloc: Global, schema: &Set, into: &mut Vec<u8>) -> Result<(), AllocError>
    ensures { OnOk result (into.new.items ≡ into.old.items ++ binding_lines schema.now) }
{
    let labels = labels_of_bindings(alloc, &schema.bindings.items)?;
    let ids = binding_ids(alloc, &schema.bindings.items)?;
    write_lines(b"binding ", &labels, ids.as_slice(), into)
}

/// Appends which classes the agent acts on.
#[tactic(auto, unfolding(crate::specs::ReportText::bound_lines))]
fn write_bound_lines(alloc: Global, schema: &Set, into: &mut Vec<u8>) -> Result<(), AllocError>
    ensures { OnOk result (into.new.items ≡ into.old.items ++ bound_lines schema.now) }
{
    let discriminator = has_bound_discriminator(alloc, schema)?;
    let log = has_bound_log(alloc, schema)?;
    write_bound(b"eventForwardingDiscriminator", discriminator, into)?;
    write_bound(b"log", log, into)
}

/// The text of a schema: a line for each class by rising identifier, and behind it the lines of what the class has; a
/// line for each name binding; and which of the classes labelled `eventForwardingDiscriminator` and `log` the agent
/// acts on. X.722, section 8.
#[tactic(auto, unfolding(crate::specs::ReportText::report_text))]
pub fn report_text(alloc: Global, schema: &Set) -> Result<Vec<u8>, AllocError>
    ensures { IfOk result (λ text. text.items ≡ report_text schema.now) }
{
    let mut text = Vec::new(alloc);
    write_classes(alloc, schema, &mut text)?;
    write_bindings(alloc, schema, &mut text)?;
    write_bound_lines(alloc, schema, &mut text)?;
    Ok(text)
}

/// Writes the text of a schema, as `report_text` gives it. For want of memory nothing is written; after a call of the
/// output that failed a part of the text from its front was written.
pub fn report<O: Sink>(alloc: Global, schema: &Set, out: &mut O) -> Result<(), ReportRefusal>
    // The whole text was written.
    ensures written { OnOk result (O.contents out.new ≡ gained (O.contents out.old) (report_text schema.now)) }

    // A call of the output failed, and a part of the text is there.
    ensures fault { result ≡ Err ReportRefusal.WriteFault → Rose (O.faults out.old) (O.faults out.new) }
    ensures part { result ≡ Err ReportRefusal.WriteFault
        → GainsPart (O.contents out.old) (O.contents out.new) (report_text schema.now) }

    // Without memory for the text nothing was written, and no other call failed.
    ensures kept { result ≡ Err ReportRefusal.Memory → O.contents out.new ≡ O.contents out.old }
    ensures quiet { result ≢ Err ReportRefusal.WriteFault → O.faults out.new ≡ O.faults out.old }
    ensures counted { O.faults out.old ≤ O.faults out.new }
{
    let text = report_text(alloc, schema)?;
    match write_all(out, text.as_slice()) {
        Ok(()) => Ok(()),
        Err(_) => Err(ReportRefusal::WriteFault),
    }
}
