//! What classes have: X.722, sections 5.2 and 8.3.

ghost use Rattle.std.specs.Prelude.{◌≡◌, ◌++◌, IfOk, OnOk, flat_map, option_to_list};
ghost use Rattle.term_model.specs.Creation.{package_ids, stated_ids};
ghost use Rattle.set_report.specs.ClassLists.{listed_by, listed_in, package_actions, package_notifications};
ghost use Rattle.set_report.specs.ClassLists.{registered_packages, unregistered_in, unregistered_label};
ghost use Rattle.set_report.specs.ClassLists.{unregistered_packages};
ghost use Rattle.set_report.specs.HasLists.{HasLists};
ghost use Rattle.set_report.specs.Orders.{in_order};

use crate::orders::{ids_in_order, texts_in_order};
use class_packages::classes_above;
use std::alloc::{AllocError, Global};
use term_model::{ClassRec, ClassRecs, PackageRec};
use term_values::{Bytes, Oid};

/// A kind of what a class has.
#[derive(Clone, Copy, Debug, PartialEq, Eq)]
pub enum Listed {
    /// The attributes of mandatory packages.
    Attributes,
    /// The actions of mandatory packages.
    Actions,
    /// The notifications of mandatory packages.
    Notifications,
    /// The conditional packages that are registered.
    Packages,
}

/// What a class has, with what it inherits, each list in rising order.
#[derive(Drop)]
pub struct ClassLists {
    /// Its attributes.
    pub attributes: Vec<Oid>,
    /// Its actions.
    pub actions: Vec<Oid>,
    /// Its notifications.
    pub notifications: Vec<Oid>,
    /// Its conditional packages that are registered.
    pub packages: Vec<Oid>,
    /// The labels of its conditional packages that aren't.
    pub unregistered: Vec<Bytes>,
}

/// Appends identifiers.
pub(crate) fn append_ids(alloc: Global, ids: &[Oid], into: &mut Vec<Oid>) -> Result<(), AllocError>
    ensures { OnOk result (into.new.items ≡ into.old.items ++ ids.now) }
{
    for id in ids {
        into.push(id.copy(alloc)?)?;
    }
    Ok(())
}

/// Appends the attributes that a package lists.
fn append_package(
    alloc: Global,
    of_package: &PackageRec,
    into: &mut Vec<Oid>,
) -> Result<(), AllocError>
    ensures { OnOk result (into.new.items ≡ into.old.items ++ package_ids of_package.now) }
{
    for stated in &of_package.attributes.items {
        into.push(stated.attribute.copy(alloc)?)?;
    }
    Ok(())
}

/// Appends the attributes of packages.
fn append_attributes(
    alloc: Global,
    packages: &[PackageRec],
    into: &mut Vec<Oid>,
) -> Result<(), AllocError>
    ensures { OnOk result (into.new.items ≡ into.old.items ++ stated_ids packages.now) }
{
    for of_package in packages {
        append_package(alloc, of_package, into)?;
    }
    Ok(())
}

/// Appends the actions of packages.
fn append_actions(
    alloc: Global,
    packages: &[PackageRec],
    into: &mut Vec<Oid>,
) -> Result<(), AllocError>
    ensures { OnOk result (into.new.items ≡ into.old.items ++ package_actions packages.now) }
{
    for of_package in packages {
        append_ids(alloc, &of_package.actions.items, into)?;
    }
    Ok(())
}

/// Appends the notifications of packages.
fn append_notifications(
    alloc: Global,
    packages: &[PackageRec],
    into: &mut Vec<Oid>,
) -> Result<(), AllocError>
    ensures { OnOk result (into.new.items ≡ into.old.items ++ package_notifications packages.now) }
{
    for of_package in packages {
        append_ids(alloc, &of_package.notifications.items, into)?;
    }
    Ok(())
}

/// Appends the identifier of a package, where it is registered.
fn append_registered(alloc: Global, id: &Option<Oid>, into: &mut Vec<Oid>) -> Result<(), AllocError>
    ensures { OnOk result (into.new.items ≡ into.old.items ++ option_to_list id.now) }
{
    if let Some(id) = id {
        into.push(id.copy(alloc)?)?;
    }
    Ok(())
}

/// Appends the identifiers of those packages that are registered.
fn append_packages(
    alloc: Global,
    packages: &[PackageRec],
    into: &mut Vec<Oid>,
) -> Result<(), AllocError>
    ensures { OnOk result (into.new.items ≡ into.old.items ++ registered_packages packages.now) }
{
    for of_package in packages {
        append_registered(alloc, &of_package.id, into)?;
    }
    Ok(())
}

/// Appends what a class itself has of a kind.
fn append_own(
    alloc: Global,
    kind: Listed,
    of_class: &ClassRec,
    into: &mut Vec<Oid>,
) -> Result<(), AllocError>
    ensures { OnOk result (into.new.items ≡ into.old.items ++ listed_in kind of_class.now) }
{
    match kind {
        Listed::Attributes => append_attributes(alloc, &of_class.mandatory.items, into),
        Listed::Actions => append_actions(alloc, &of_class.mandatory.items, into),
        Listed::Notifications => append_notifications(alloc, &of_class.mandatory.items, into),
        Listed::Packages => append_packages(alloc, &of_class.conditional.items, into),
    }
}

/// The same of the class of an identifier, where that has a record.
pub(crate) fn append_by(
    alloc: Global,
    records: &ClassRecs,
    kind: Listed,
    class: &Oid,
    into: &mut Vec<Oid>,
) -> Result<(), AllocError>
    ensures { OnOk result (into.new.items ≡ into.old.items ++ listed_by records.now (listed_in kind) class.now) }
{
    match records.find(class) {
        Some(of_class) => append_own(alloc, kind, of_class, into),
        None => Ok(()),
    }
}

/// What these classes have of a kind, in rising order.
pub(crate) fn listed_above(
    alloc: Global,
    records: &ClassRecs,
    kind: Listed,
    above: &[Oid],
) -> Result<Vec<Oid>, AllocError>
    ensures { IfOk result (λ found. found.items
        ≡ in_order (flat_map (listed_by records.now (listed_in kind)) above.now)) }
{
    let mut found = Vec::new(alloc);
    for class in above {
        append_by(alloc, records, kind, class, &mut found)?;
    }
    ids_in_order(found)
}

/// Appends texts.
pub(crate) fn append_texts(
    alloc: Global,
    texts: &[Bytes],
    into: &mut Vec<Bytes>,
) -> Result<(), AllocError>
    ensures { OnOk result (into.new.items ≡ into.old.items ++ texts.now) }
{
    for text in texts {
        into.push(text.copy(alloc)?)?;
    }
    Ok(())
}

/// Appends the label of a package that isn't registered.
fn append_unregistered(
    alloc: Global,
    of_package: &PackageRec,
    into: &mut Vec<Bytes>,
) -> Result<(), AllocError>
    ensures { OnOk result (into.new.items ≡ into.old.items ++ unregistered_label of_package.now) }
{
    if of_package.id.is_none() {
        into.push(of_package.label.copy(alloc)?)?;
    }
    Ok(())
}

/// Appends the labels of those packages that aren't registered.
fn append_labels(
    alloc: Global,
    packages: &[PackageRec],
    into: &mut Vec<Bytes>,
) -> Result<(), AllocError>
    ensures { OnOk result (into.new.items ≡ into.old.items ++ unregistered_packages packages.now) }
{
    for of_package in packages {
        append_unregistered(alloc, of_package, into)?;
    }
    Ok(())
}

/// Appends the labels of the unregistered conditional packages of a class, where that has a record.
pub(crate) fn append_labels_by(
    alloc: Global,
    records: &ClassRecs,
    class: &Oid,
    into: &mut Vec<Bytes>,
) -> Result<(), AllocError>
    ensures { OnOk result (into.new.items ≡ into.old.items ++ listed_by records.now unregistered_in class.now) }
{
    match records.find(class) {
        Some(of_class) => append_labels(alloc, &of_class.conditional.items, into),
        None => Ok(()),
    }
}

/// The labels of the unregistered conditional packages of these classes, in rising order.
pub(crate) fn unregistered_above(
    alloc: Global,
    records: &ClassRecs,
    above: &[Oid],
) -> Result<Vec<Bytes>, AllocError>
    ensures { IfOk result (λ found. found.items
        ≡ in_order (flat_map (listed_by records.now unregistered_in) above.now)) }
{
    let mut found = Vec::new(alloc);
    for class in above {
        append_labels_by(alloc, records, class, &mut found)?;
    }
    texts_in_order(found)
}

/// What a class has, with what it inherits, from all classes above it.
pub(crate) fn class_lists(
    alloc: Global,
    records: &ClassRecs,
    class: &Oid,
) -> Result<ClassLists, AllocError>
    ensures { IfOk result (HasLists records.now class.now) }
{
    let above = classes_above(alloc, records, class)?;
    let above = above.items.as_slice();
    Ok(ClassLists {
        attributes: listed_above(alloc, records, Listed::Attributes, above)?,
        actions: listed_above(alloc, records, Listed::Actions, above)?,
        notifications: listed_above(alloc, records, Listed::Notifications, above)?,
        packages: listed_above(alloc, records, Listed::Packages, above)?,
        unregistered: unregistered_above(alloc, records, above)?,
    })
}

/// These identifiers in rising order, each once.
pub(crate) fn copied_in_order(alloc: Global, ids: &[Oid]) -> Result<Vec<Oid>, AllocError>
    ensures { IfOk result (λ found. found.items ≡ in_order ids.now) }
{
    let mut copied = Vec::new(alloc);
    append_ids(alloc, ids, &mut copied)?;
    ids_in_order(copied)
}
