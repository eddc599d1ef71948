//! The lists of all classes, each made of what the class itself has and of the lists of its direct superclasses, so
//! that no class above these is looked at again: X.722, section 5.2.

ghost use Rattle.std.specs.Prelude.{◌≡◌, ◌++◌, IfOk, IfSome, OnOk, flat_map, true};
ghost use Rattle.std.specs.List.{list_all};
ghost use Rattle.term_model.specs.PresentPackages.{superclasses};
ghost use Rattle.set_report.specs.ClassLists.{listed_by, listed_in, unregistered_in};
ghost use Rattle.set_report.specs.DoneLists.{AreDone, done_by, ids_of, is_done, labels_of};
ghost use Rattle.set_report.specs.HasLists.{HasLists};
ghost use Rattle.set_report.specs.Orders.{in_order};

use crate::class_lists::{
    ClassLists, Listed, append_by, append_ids, append_labels_by, append_texts, class_lists,
};
use crate::orders::{ids_in_order, texts_in_order};
use link_graphs::{Graph, find_cycles};
use std::alloc::{AllocError, Global};
use std::collections::BTreeMap;
use term_model::{ClassRec, ClassRecs};
use term_values::{Bytes, Oid};

/// The lists of classes, by identifier.
pub(crate) type ListTable = BTreeMap<Oid, ClassLists>;

/// The list of a kind.
fn ids_of(lists: &ClassLists, kind: Listed) -> &[Oid]
    ensures { result.now ≡ ids_of kind lists.now }
{
    match kind {
        Listed::Attributes => lists.attributes.as_slice(),
        Listed::Actions => lists.actions.as_slice(),
        Listed::Notifications => lists.notifications.as_slice(),
        Listed::Packages => lists.packages.as_slice(),
    }
}

/// Appends what a class has of a kind, where its lists were made.
fn append_done(
    alloc: Global,
    table: &ListTable,
    kind: Listed,
    class: &Oid,
    into: &mut Vec<Oid>,
) -> Result<(), AllocError>
    ensures { OnOk result (into.new.items ≡ into.old.items ++ done_by table.now (ids_of kind) class.now) }
{
    match table.get(class) {
        Some(lists) => append_ids(alloc, ids_of(lists, kind), into),
        None => Ok(()),
    }
}

/// The same of its labels of packages that aren't registered.
fn append_done_labels(
    alloc: Global,
    table: &ListTable,
    class: &Oid,
    into: &mut Vec<Bytes>,
) -> Result<(), AllocError>
    ensures { OnOk result (into.new.items ≡ into.old.items ++ done_by table.now labels_of class.now) }
{
    match table.get(class) {
        Some(lists) => append_texts(alloc, lists.unregistered.as_slice(), into),
        None => Ok(()),
    }
}

/// What a class has of a kind, with what its direct superclasses have, in rising order.
fn listed_with(
    alloc: Global,
    records: &ClassRecs,
    table: &ListTable,
    kind: Listed,
    class: &Oid,
    supers: &[Oid],
) -> Result<Vec<Oid>, AllocError>
    ensures { IfOk result (λ found. found.items ≡ in_order (listed_by records.now (listed_in kind) class.now
        ++ flat_map (done_by table.now (ids_of kind)) supers.now)) }
{
    let mut found = Vec::new(alloc);
    append_by(alloc, records, kind, class, &mut found)?;
    for above in supers {
        append_done(alloc, table, kind, above, &mut found)?;
    }
    ids_in_order(found)
}

/// The same of the labels of packages that aren't registered.
fn unregistered_with(
    alloc: Global,
    records: &ClassRecs,
    table: &ListTable,
    class: &Oid,
    supers: &[Oid],
) -> Result<Vec<Bytes>, AllocError>
    ensures { IfOk result (λ found. found.items ≡ in_order (listed_by records.now unregistered_in class.now
        ++ flat_map (done_by table.now labels_of) supers.now)) }
{
    let mut found = Vec::new(alloc);
    append_labels_by(alloc, records, class, &mut found)?;
    for above in supers {
        append_done_labels(alloc, table, above, &mut found)?;
    }
    texts_in_order(found)
}

/// The lists of all of these classes were made.
fn are_done(table: &ListTable, classes: &[Oid]) -> bool
    ensures { result ≡ list_all (is_done table.now) classes.now }
{
    for class in classes {
        if !table.contains_key(class) {
            return false;
        }
    }
    true
}

/// The lists of a class whose direct superclasses have theirs.
fn lists_with(
    alloc: Global,
    records: &ClassRecs,
    table: &ListTable,
    class: &Oid,
    supers: &[Oid],
) -> Result<ClassLists, AllocError>
    requires done { AreDone records.now table.now }
    requires all { list_all (is_done table.now) supers.now ≡ true }
    requires supers { supers.now ≡ superclasses records.now class.now }
    ensures { IfOk result (HasLists records.now class.now) }
{
    Ok(ClassLists {
        attributes: listed_with(alloc, records, table, Listed::Attributes, class, supers)?,
        actions: listed_with(alloc, records, table, Listed::Actions, class, supers)?,
        notifications: listed_with(alloc, records, table, Listed::Notifications, class, supers)?,
        packages: listed_with(alloc, records, table, Listed::Packages, class, supers)?,
        unregistered: unregistered_with(alloc, records, table, class, supers)?,
    })
}

/// The direct superclasses of a class.
fn supers_of<'r>(records: &'r ClassRecs, class: &Oid) -> &'r [Oid]
    ensures { result.now ≡ superclasses records.now class.now }
{
    match records.find(class) {
        Some(of_class) => of_class.superclasses.items.as_slice(),
        None => &[],
    }
}

/// The lists of a class: from those of its direct superclasses, where these were made, else from all classes above it.
fn lists_of(
    alloc: Global,
    records: &ClassRecs,
    table: &ListTable,
    class: &Oid,
) -> Result<ClassLists, AllocError>
    requires { AreDone records.now table.now }
    ensures { IfOk result (HasLists records.now class.now) }
{
    let supers = supers_of(records, class);
    if are_done(table, supers) {
        lists_with(alloc, records, table, class, supers)
    } else {
        class_lists(alloc, records, class)
    }
}

/// Adds the lists of a class to the table.
fn add_lists(
    alloc: Global,
    records: &ClassRecs,
    class: &Oid,
    table: &mut ListTable,
) -> Result<(), AllocError>
    requires { AreDone records.now table.old }
    ensures { OnOk result (AreDone records.now table.new) }
{
    let lists = lists_of(alloc, records, table, class)?;
    let id = class.copy(alloc)?;
    table.insert(id, lists)?;
    Ok(())
}

/// The places of classes by identifier.
fn class_places(alloc: Global, classes: &[ClassRec]) -> Result<BTreeMap<Oid, usize>, AllocError> {
    let mut places = BTreeMap::new(alloc);
    for (place, of_class) in classes.iter().enumerate() {
        places.insert(of_class.id.copy(alloc)?, place)?;
    }
    Ok(places)
}

/// The places of the direct superclasses of a class.
fn super_places(
    alloc: Global,
    of_class: &ClassRec,
    places: &BTreeMap<Oid, usize>,
) -> Result<Vec<usize>, AllocError> {
    let mut targets = Vec::new(alloc);
    for class in &of_class.superclasses.items {
        if let Some(place) = places.get(class) {
            targets.push(*place)?;
        }
    }
    Ok(targets)
}

/// The places of classes, each behind those of its direct superclasses where none derives from itself. It is for time
/// alone, and no clause rests on it.
fn taking_order(alloc: Global, classes: &[ClassRec]) -> Result<Vec<usize>, AllocError> {
    let places = class_places(alloc, classes)?;
    let mut targets = Vec::new(alloc);
    for of_class in classes {
        targets.push(super_places(alloc, of_class, &places)?)?;
    }
    let cycles = find_cycles(alloc, &Graph { targets })?;
    Ok(cycles.order)
}

/// Adds the lists of the class at a place.
fn add_at(
    alloc: Global,
    records: &ClassRecs,
    place: usize,
    table: &mut ListTable,
) -> Result<(), AllocError>
    requires { AreDone records.now table.old }
    ensures { OnOk result (AreDone records.now table.new) }
{
    match records.as_slice().get(place) {
        Some(of_class) => add_lists(alloc, records, &of_class.id, table),
        None => Ok(()),
    }
}

/// The lists of classes. The time grows with the lists, and with the direct superclasses and what these have.
pub(crate) fn list_table(alloc: Global, records: &ClassRecs) -> Result<ListTable, AllocError>
    ensures { IfOk result (AreDone records.now) }
{
    let order = taking_order(alloc, records.as_slice())?;
    let mut table = BTreeMap::new(alloc);
    for place in &order {
        add_at(alloc, records, *place, &mut table)?;
    }
    Ok(table)
}

/// The lists of a class, where the table has them.
pub(crate) fn found_lists<'t>(
    records: &ClassRecs,
    table: &'t ListTable,
    class: &Oid,
) -> Option<&'t ClassLists>
    requires { AreDone records.now table.now }
    ensures { IfSome result (λ lists. HasLists records.now class.now lists.now) }
{
    table.get(class)
}
