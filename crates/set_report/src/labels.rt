//! The labels of what is registered in a schema, found by identifier in a time that grows with the logarithm of their
//! number: X.722, section 8, REGISTERED AS.

ghost use Rattle.std.specs.Prelude.{◌≡◌, ◌∷◌, [], IfOk, OnOk, flat_map};
ghost use Rattle.set_report.specs.Labels.{AddsLabels, HasLabels, action_labels, attribute_labels, binding_labels};
ghost use Rattle.set_report.specs.Labels.{class_labels, label_in, notification_labels, package_label, package_labels};
ghost use Rattle.set_report.specs.NamesSchema.{NamesSchema};

use std::alloc::{AllocError, Global};
use std::collections::BTreeMap;
use term_model::{ActRec, AttrRec, BindRec, ClassRec, NoteRec, PackageRec, Set};
use term_values::{Bytes, Oid};

/// Labels by identifier.
pub type Labels = BTreeMap<Oid, Bytes>;

/// The label of an identifier, and nothing where it has none.
pub(crate) fn label_of<'a>(labels: &'a Labels, id: &Oid) -> &'a [u8]
    ensures { result.now ≡ label_in labels.now id.now }
{
    match labels.get(id) {
        Some(label) => label.as_slice(),
        None => &[],
    }
}

/// Adds the label of an identifier, where that has none yet.
fn add_label(alloc: Global, id: &Oid, label: &Bytes, labels: &mut Labels) -> Result<(), AllocError>
    ensures { OnOk result (AddsLabels labels.old labels.new ((id.now, label.now) ∷ [])) }
{
    if !labels.contains_key(id) {
        let id = id.copy(alloc)?;
        labels.insert(id, label.copy(alloc)?)?;
    }
    Ok(())
}

/// The labels of classes.
pub(crate) fn labels_of_classes(alloc: Global, classes: &[ClassRec]) -> Result<Labels, AllocError>
    ensures { IfOk result (λ labels. HasLabels labels (class_labels classes.now)) }
{
    let mut labels = BTreeMap::new(alloc);
    for of_class in classes {
        add_label(alloc, &of_class.id, &of_class.label, &mut labels)?;
    }
    Ok(labels)
}

/// The labels of attributes.
pub(crate) fn labels_of_attributes(
    alloc: Global,
    attributes: &[AttrRec],
) -> Result<Labels, AllocError>
    ensures { IfOk result (λ labels. HasLabels labels (attribute_labels attributes.now)) }
{
    let mut labels = BTreeMap::new(alloc);
    for of_attribute in attributes {
        add_label(alloc, &of_attribute.id, &of_attribute.label, &mut labels)?;
    }
    Ok(labels)
}

/// The labels of actions.
pub(crate) fn labels_of_actions(alloc: Global, actions: &[ActRec]) -> Result<Labels, AllocError>
    ensures { IfOk result (λ labels. HasLabels labels (action_labels actions.now)) }
{
    let mut labels = BTreeMap::new(alloc);
    for of_action in actions {
        add_label(alloc, &of_action.id, &of_action.label, &mut labels)?;
    }
    Ok(labels)
}

/// The labels of notifications.
pub(crate) fn labels_of_notifications(
    alloc: Global,
    notifications: &[NoteRec],
) -> Result<Labels, AllocError>
    ensures { IfOk result (λ labels. HasLabels labels (notification_labels notifications.now)) }
{
    let mut labels = BTreeMap::new(alloc);
    for of_note in notifications {
        add_label(alloc, &of_note.id, &of_note.label, &mut labels)?;
    }
    Ok(labels)
}

/// The labels of name bindings.
pub(crate) fn labels_of_bindings(alloc: Global, bindings: &[BindRec]) -> Result<Labels, AllocError>
    ensures { IfOk result (λ labels. HasLabels labels (binding_labels bindings.now)) }
{
    let mut labels = BTreeMap::new(alloc);
    for binding in bindings {
        add_label(alloc, &binding.id, &binding.label, &mut labels)?;
    }
    Ok(labels)
}

/// Adds the label of a package, where that is registered.
fn add_package(
    alloc: Global,
    of_package: &PackageRec,
    labels: &mut Labels,
) -> Result<(), AllocError>
    ensures { OnOk result (AddsLabels labels.old labels.new (package_label of_package.now)) }
{
    match &of_package.id {
        Some(id) => add_label(alloc, id, &of_package.label, labels),
        None => Ok(()),
    }
}

/// Adds the labels of those packages that are registered.
fn add_packages(
    alloc: Global,
    packages: &[PackageRec],
    labels: &mut Labels,
) -> Result<(), AllocError>
    ensures { OnOk result (AddsLabels labels.old labels.new (flat_map package_label packages.now)) }
{
    for of_package in packages {
        add_package(alloc, of_package, labels)?;
    }
    Ok(())
}

/// The labels of the conditional packages of classes.
pub(crate) fn labels_of_packages(alloc: Global, classes: &[ClassRec]) -> Result<Labels, AllocError>
    ensures { IfOk result (λ labels. HasLabels labels (package_labels classes.now)) }
{
    let mut labels = BTreeMap::new(alloc);
    for of_class in classes {
        add_packages(alloc, &of_class.conditional.items, &mut labels)?;
    }
    Ok(labels)
}

/// The labels of a schema.
#[derive(Drop)]
pub struct SchemaLabels {
    /// Those of classes.
    pub classes: Labels,
    /// Those of attributes.
    pub attributes: Labels,
    /// Those of actions.
    pub actions: Labels,
    /// Those of notifications.
    pub notifications: Labels,
    /// Those of the conditional packages of classes, where they are registered.
    pub packages: Labels,
}

/// The labels of a schema's classes, attributes, actions, notifications and conditional packages.
pub(crate) fn schema_labels(alloc: Global, schema: &Set) -> Result<SchemaLabels, AllocError>
    ensures { IfOk result (NamesSchema schema.now) }
{
    Ok(SchemaLabels {
        classes: labels_of_classes(alloc, schema.classes.as_slice())?,
        attributes: labels_of_attributes(alloc, schema.attributes.as_slice())?,
        actions: labels_of_actions(alloc, &schema.actions.items)?,
        notifications: labels_of_notifications(alloc, &schema.notifications.items)?,
        packages: labels_of_packages(alloc, schema.classes.as_slice())?,
    })
}
