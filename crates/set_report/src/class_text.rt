//! The text of one class: X.722, section 8.3.

ghost use Rattle.std.specs.Prelude.{◌≡◌, ◌++◌, IfOk, OnOk};
ghost use Rattle.attribute_rules.specs.PropertyPlaces.{HasPropertyPlaces};
ghost use Rattle.set_report.specs.DoneLists.{AreDone};
ghost use Rattle.set_report.specs.HasLists.{HasLists};
ghost use Rattle.set_report.specs.NamesSchema.{NamesSchema};
ghost use Rattle.set_report.specs.Orders.{in_order};
ghost use Rattle.set_report.specs.ReportText.{action_lines, attribute_lines, attribute_of, attribute_part, class_text};
ghost use Rattle.set_report.specs.ReportText.{conditional_lines, member_lines, notification_lines, required_lines};
ghost use Rattle.set_report.specs.ReportText.{required_of, super_lines};

use crate::class_lists::{ClassLists, class_lists, copied_in_order};
use crate::labels::{SchemaLabels, label_of};
use crate::lines::{
    write_attribute_line, write_line, write_lines, write_types, write_unregistered,
};
use crate::list_tables::{ListTable, found_lists};
use crate::orders::texts_in_order;
use attribute_rules::property_places::{PropertyPlaces, property_of, property_places};
use std::alloc::{AllocError, Global};
use term_model::{ClassRec, Set, TypeNames};
use term_values::{Bytes, Oid};

/// Appends the lines of the direct superclasses.
fn write_supers(
    alloc: Global,
    schema: &Set,
    labels: &SchemaLabels,
    of_class: &ClassRec,
    into: &mut Vec<u8>,
) -> Result<(), AllocError>
    requires { NamesSchema schema.now labels.now }
    ensures { OnOk result (into.new.items ≡ into.old.items ++ super_lines schema.now of_class.now) }
{
    let ids = copied_in_order(alloc, &of_class.superclasses.items)?;
    write_lines(b" super ", &labels.classes, ids.as_slice(), into)
}

/// Appends the line of an attribute.
fn write_attribute(
    schema: &Set,
    labels: &SchemaLabels,
    places: &PropertyPlaces,
    of_class: &ClassRec,
    id: &Oid,
    into: &mut Vec<u8>,
) -> Result<(), AllocError>
    requires names { NamesSchema schema.now labels.now }
    requires places { HasPropertyPlaces schema.now of_class.now.id places.now }
    ensures { OnOk result (into.new.items ≡ into.old.items ++ attribute_of schema.now of_class.now id.now) }
{
    let label = label_of(&labels.attributes, id);
    let property = property_of(schema, places, &of_class.id, id);
    write_attribute_line(id, label, property, into)
}

/// Appends the lines of attributes.
fn write_attributes(
    schema: &Set,
    labels: &SchemaLabels,
    places: &PropertyPlaces,
    of_class: &ClassRec,
    ids: &[Oid],
    into: &mut Vec<u8>,
) -> Result<(), AllocError>
    requires names { NamesSchema schema.now labels.now }
    requires places { HasPropertyPlaces schema.now of_class.now.id places.now }
    ensures { OnOk result (into.new.items ≡ into.old.items ++ attribute_lines schema.now of_class.now ids.now) }
{
    for id in ids {
        write_attribute(schema, labels, places, of_class, id, into)?;
    }
    Ok(())
}

/// The names of types in rising order of their octets, each once.
fn types_in_order(alloc: Global, types: &TypeNames) -> Result<Vec<Bytes>, AllocError>
    ensures { IfOk result (λ found. found.items ≡ in_order types.now) }
{
    let mut copied = Vec::new(alloc);
    for of_type in &types.items {
        copied.push(of_type.copy(alloc)?)?;
    }
    texts_in_order(copied)
}

/// Appends the lines of the types that are required of an attribute.
#[tactic(auto, unfolding(crate::specs::ReportText::required_of))]
fn write_required(
    alloc: Global,
    schema: &Set,
    places: &PropertyPlaces,
    of_class: &ClassRec,
    id: &Oid,
    into: &mut Vec<u8>,
) -> Result<(), AllocError>
    requires { HasPropertyPlaces schema.now of_class.now.id places.now }
    ensures { OnOk result (into.new.items ≡ into.old.items ++ required_of schema.now of_class.now id.now) }
{
    match property_of(schema, places, &of_class.id, id) {
        Some(property) => {
            let types = types_in_order(alloc, &property.required)?;
            write_types(b" required ", id, types.as_slice(), into)
        }
        None => Ok(()),
    }
}

/// Appends the lines of the types that are required of attributes.
fn write_all_required(
    alloc: Global,
    schema: &Set,
    places: &PropertyPlaces,
    of_class: &ClassRec,
    ids: &[Oid],
    into: &mut Vec<u8>,
) -> Result<(), AllocError>
    requires { HasPropertyPlaces schema.now of_class.now.id places.now }
    ensures { OnOk result (into.new.items ≡ into.old.items ++ required_lines schema.now of_class.now ids.now) }
{
    for id in ids {
        write_required(alloc, schema, places, of_class, id, into)?;
    }
    Ok(())
}

/// Appends the lines of attributes, and behind all of them those of the types that are required of them.
fn write_attribute_part(
    alloc: Global,
    schema: &Set,
    labels: &SchemaLabels,
    of_class: &ClassRec,
    lists: &ClassLists,
    into: &mut Vec<u8>,
) -> Result<(), AllocError>
    requires names { NamesSchema schema.now labels.now }
    requires lists { HasLists schema.now.classes of_class.now.id lists.now }
    ensures { OnOk result (into.new.items ≡ into.old.items ++ attribute_part schema.now of_class.now) }
{
    let places = property_places(alloc, schema, &of_class.id)?;
    let ids = lists.attributes.as_slice();
    write_attributes(schema, labels, &places, of_class, ids, into)?;
    write_all_required(alloc, schema, &places, of_class, ids, into)
}

/// Appends the lines of actions.
fn write_actions(
    schema: &Set,
    labels: &SchemaLabels,
    of_class: &ClassRec,
    lists: &ClassLists,
    into: &mut Vec<u8>,
) -> Result<(), AllocError>
    requires names { NamesSchema schema.now labels.now }
    requires lists { HasLists schema.now.classes of_class.now.id lists.now }
    ensures { OnOk result (into.new.items ≡ into.old.items ++ action_lines schema.now of_class.now) }
{
    write_lines(b" action ", &labels.actions, lists.actions.as_slice(), into)
}

/// Appends the lines of notifications.
fn write_notifications(
    schema: &Set,
    labels: &SchemaLabels,
    of_class: &ClassRec,
    lists: &ClassLists,
    into: &mut Vec<u8>,
) -> Result<(), AllocError>
    requires names { NamesSchema schema.now labels.now }
    requires lists { HasLists schema.now.classes of_class.now.id lists.now }
    ensures { OnOk result (into.new.items ≡ into.old.items ++ notification_lines schema.now of_class.now) }
{
    let ids = lists.notifications.as_slice();
    write_lines(b" notification ", &labels.notifications, ids, into)
}

/// Appends the lines of conditional packages: those that aren't registered, and behind them the others.
fn write_conditional(
    schema: &Set,
    labels: &SchemaLabels,
    of_class: &ClassRec,
    lists: &ClassLists,
    into: &mut Vec<u8>,
) -> Result<(), AllocError>
    requires names { NamesSchema schema.now labels.now }
    requires lists { HasLists schema.now.classes of_class.now.id lists.now }
    ensures { OnOk result (into.new.items ≡ into.old.items ++ conditional_lines schema.now of_class.now) }
{
    write_unregistered(lists.unregistered.as_slice(), into)?;
    write_lines(
        b" conditional ",
        &labels.packages,
        lists.packages.as_slice(),
        into,
    )
}

/// Appends the lines of what a class has.
#[tactic(auto, unfolding(crate::specs::ReportText::member_lines))]
fn write_members(
    alloc: Global,
    schema: &Set,
    labels: &SchemaLabels,
    of_class: &ClassRec,
    lists: &ClassLists,
    into: &mut Vec<u8>,
) -> Result<(), AllocError>
    requires names { NamesSchema schema.now labels.now }
    requires lists { HasLists schema.now.classes of_class.now.id lists.now }
    ensures { OnOk result (into.new.items ≡ into.old.items ++ member_lines schema.now of_class.now) }
{
    write_attribute_part(alloc, schema, labels, of_class, lists, into)?;
    write_actions(schema, labels, of_class, lists, into)?;
    write_notifications(schema, labels, of_class, lists, into)?;
    write_conditional(schema, labels, of_class, lists, into)
}

/// Appends the lines of a class that has these lists.
#[tactic(auto, unfolding(crate::specs::ReportText::class_text))]
fn write_listed(
    alloc: Global,
    schema: &Set,
    labels: &SchemaLabels,
    of_class: &ClassRec,
    lists: &ClassLists,
    into: &mut Vec<u8>,
) -> Result<(), AllocError>
    requires names { NamesSchema schema.now labels.now }
    requires lists { HasLists schema.now.classes of_class.now.id lists.now }
    ensures { OnOk result (into.new.items ≡ into.old.items ++ class_text schema.now of_class.now) }
{
    write_line(b"class ", &of_class.id, of_class.label.as_slice(), into)?;
    write_supers(alloc, schema, labels, of_class, into)?;
    write_members(alloc, schema, labels, of_class, lists, into)
}

/// Appends the lines of a class, by its lists in the table, or else by lists of its own.
pub(crate) fn write_class(
    alloc: Global,
    schema: &Set,
    labels: &SchemaLabels,
    table: &ListTable,
    of_class: &ClassRec,
    into: &mut Vec<u8>,
) -> Result<(), AllocError>
    requires names { NamesSchema schema.now labels.now }
    requires table { AreDone schema.now.classes table.now }
    ensures { OnOk result (into.new.items ≡ into.old.items ++ class_text schema.now of_class.now) }
{
    match found_lists(&schema.classes, table, &of_class.id) {
        Some(lists) => write_listed(alloc, schema, labels, of_class, lists, into),
        None => {
            let lists = class_lists(alloc, &schema.classes, &of_class.id)?;
            write_listed(alloc, schema, labels, of_class, &lists, into)
        }
    }
}
