//! Which attribute groups the packages of an object use, and which attributes are members of those that a Get asks for:
//! X.722, sections 8.4 and 8.8.

ghost use Rattle.std.specs.Prelude.{◌≡◌, ◌&&◌, ◌||◌, ◌∷◌, [], ℕ, List, IfOk, OnOk, filter, flat_map};
ghost use Rattle.term_model.specs.declared.packages.PackageRec.{PackageRec};
ghost use Rattle.term_model.specs.ObjectGet.{is_used, uses_of};
ghost use Rattle.term_model.specs.PresentPackages.{is_among, packages_by};
ghost use Rattle.op_object.specs.GroupSets.{AddsUses, adds_member, has_package, has_template_member};
ghost use Rattle.op_object.specs.GroupSets.{packages_stated, packages_stated_by};
ghost use Rattle.op_object.specs.IdSets.{Adds, has_id};

use crate::id_sets::{add_id, add_ids, id_set};
use class_packages::classes_above;
use std::alloc::{AllocError, Global};
use std::collections::BTreeSet;
use term_model::{ClassRec, ClassRecs, GroupRec, GroupUse, Object, Oids, PackageRec, Set};
use term_values::Oid;

/// Groups that are used, and attributes that are members of groups.
#[derive(Drop)]
pub(crate) struct GroupSets {
    /// The groups that packages of the object use.
    pub(crate) used: BTreeSet<Oid>,
    /// The members of those that are asked for.
    pub(crate) members: BTreeSet<Oid>,
}

/// Adds one use of a group.
fn add_use(
    alloc: Global,
    asked: &BTreeSet<Oid>,
    use_of: &GroupUse,
    into: &mut GroupSets,
) -> Result<(), AllocError>
    ensures { OnOk result
        (AddsUses asked.now (use_of.now ∷ []) into.old.used into.new.used into.old.members into.new.members) }
{
    add_id(alloc, &use_of.group, &mut into.used)?;
    if asked.contains(&use_of.group) {
        add_ids(alloc, use_of.added.items.as_slice(), &mut into.members)?;
    }
    Ok(())
}

/// Adds uses of groups.
fn add_uses(
    alloc: Global,
    asked: &BTreeSet<Oid>,
    uses: &[GroupUse],
    into: &mut GroupSets,
) -> Result<(), AllocError>
    ensures { OnOk result
        (AddsUses asked.now uses.now into.old.used into.new.used into.old.members into.new.members) }
{
    for use_of in uses {
        add_use(alloc, asked, use_of, into)?;
    }
    Ok(())
}

/// Adds the uses of packages.
fn add_packages(
    alloc: Global,
    asked: &BTreeSet<Oid>,
    packages: &[PackageRec],
    into: &mut GroupSets,
) -> Result<(), AllocError>
    ensures { OnOk result
        (AddsUses asked.now (flat_map (λ (of_package : PackageRec). of_package.groups) packages.now)
        into.old.used into.new.used into.old.members into.new.members) }
{
    for of_package in packages {
        add_uses(alloc, asked, of_package.groups.items.as_slice(), into)?;
    }
    Ok(())
}

/// The package is registered, and its identifier among these.
fn is_chosen(chosen: &BTreeSet<Oid>, of_package: &PackageRec) -> bool
    ensures { result ≡ has_package chosen.now of_package.now }
{
    match &of_package.id {
        Some(id) => chosen.contains(id),
        None => false,
    }
}

/// Adds the uses of the conditional packages that the creation chose.
fn add_chosen(
    alloc: Global,
    asked: &BTreeSet<Oid>,
    chosen: &BTreeSet<Oid>,
    packages: &[PackageRec],
    into: &mut GroupSets,
) -> Result<(), AllocError>
    ensures { OnOk result
        (AddsUses asked.now (flat_map (λ (of_package : PackageRec). of_package.groups)
        (filter (has_package chosen.now) packages.now))
        into.old.used into.new.used into.old.members into.new.members) }
{
    for of_package in packages {
        if is_chosen(chosen, of_package) {
            add_uses(alloc, asked, of_package.groups.items.as_slice(), into)?;
        }
    }
    Ok(())
}

/// Adds the uses of the packages that an object has by what a class itself states.
fn add_class(
    alloc: Global,
    asked: &BTreeSet<Oid>,
    chosen: &BTreeSet<Oid>,
    of_class: &ClassRec,
    into: &mut GroupSets,
) -> Result<(), AllocError>
    ensures { OnOk result
        (AddsUses asked.now (flat_map (λ (of_package : PackageRec). of_package.groups)
        (packages_stated chosen.now of_class.now))
        into.old.used into.new.used into.old.members into.new.members) }
{
    add_packages(alloc, asked, of_class.mandatory.items.as_slice(), into)?;
    add_chosen(
        alloc,
        asked,
        chosen,
        of_class.conditional.items.as_slice(),
        into,
    )
}

/// Adds the uses of the packages that an object has by what the class with this identifier states.
fn add_class_by(
    alloc: Global,
    asked: &BTreeSet<Oid>,
    chosen: &BTreeSet<Oid>,
    records: &ClassRecs,
    class: &Oid,
    into: &mut GroupSets,
) -> Result<(), AllocError>
    ensures { OnOk result
        (AddsUses asked.now (flat_map (λ (of_package : PackageRec). of_package.groups)
        (packages_stated_by records.now chosen.now class.now))
        into.old.used into.new.used into.old.members into.new.members) }
{
    match records.find(class) {
        Some(of_class) => add_class(alloc, asked, chosen, of_class, into),
        None => Ok(()),
    }
}

/// Adds the uses of the packages that an object has by what these classes state.
fn add_classes(
    alloc: Global,
    asked: &BTreeSet<Oid>,
    chosen: &BTreeSet<Oid>,
    records: &ClassRecs,
    classes: &[Oid],
    into: &mut GroupSets,
) -> Result<(), AllocError>
    ensures { OnOk result
        (AddsUses asked.now (flat_map (λ (of_package : PackageRec). of_package.groups)
        (flat_map (packages_stated_by records.now chosen.now) classes.now))
        into.old.used into.new.used into.old.members into.new.members) }
{
    for class in classes {
        add_class_by(alloc, asked, chosen, records, class, into)?;
    }
    Ok(())
}

/// The same where the packages that the creation chose are a list.
fn add_by_list(
    alloc: Global,
    asked: &BTreeSet<Oid>,
    chosen: &Oids,
    records: &ClassRecs,
    classes: &[Oid],
    into: &mut GroupSets,
) -> Result<(), AllocError>
    ensures { OnOk result
        (AddsUses asked.now (flat_map (λ (of_package : PackageRec). of_package.groups)
        (flat_map (packages_by records.now chosen.now) classes.now))
        into.old.used into.new.used into.old.members into.new.members) }
{
    let ids = id_set(alloc, chosen.items.as_slice())?;
    add_classes(alloc, asked, &ids, records, classes, into)
}

/// Adds the members of a group by its template, where it is asked for and used.
fn add_template(
    alloc: Global,
    asked: &BTreeSet<Oid>,
    of_group: &GroupRec,
    into: &mut GroupSets,
) -> Result<(), AllocError>
    ensures added { OnOk result ((q : List ℕ) → has_id into.new.members q
        ≡ (has_id into.old.members q || (has_id asked.now of_group.now.id && has_id into.old.used of_group.now.id
        && is_among of_group.now.members q))) }
    ensures kept { into.new.used ≡ into.old.used }
{
    if asked.contains(&of_group.id) && into.used.contains(&of_group.id) {
        add_ids(alloc, of_group.members.items.as_slice(), &mut into.members)?;
    }
    Ok(())
}

/// Adds the members of groups by their templates.
fn add_templates(
    alloc: Global,
    asked: &BTreeSet<Oid>,
    groups: &[GroupRec],
    into: &mut GroupSets,
) -> Result<(), AllocError>
    ensures added { OnOk result ((q : List ℕ) → has_id into.new.members q
        ≡ (has_id into.old.members q || has_template_member asked.now into.old.used groups.now q)) }
    ensures kept { into.new.used ≡ into.old.used }
{
    for of_group in groups {
        add_template(alloc, asked, of_group, into)?;
    }
    Ok(())
}

/// The groups that packages of the object use, and the members of those that are asked for.
pub(crate) fn group_sets(
    alloc: Global,
    schema: &Set,
    object: &Object,
    asked: &BTreeSet<Oid>,
) -> Result<GroupSets, AllocError>
    ensures used { IfOk result (λ sets. (q : List ℕ) → has_id sets.used q
        ≡ is_used (uses_of schema.now object.now) q) }
    ensures members { IfOk result (λ sets. (q : List ℕ) → has_id sets.members q
        ≡ (adds_member asked.now (uses_of schema.now object.now) q
        || has_template_member asked.now sets.used schema.now.groups q)) }
{
    let classes = classes_above(alloc, &schema.classes, &object.class)?;
    let mut sets = GroupSets {
        used: BTreeSet::new(alloc),
        members: BTreeSet::new(alloc),
    };
    add_by_list(
        alloc,
        asked,
        &object.chosen,
        &schema.classes,
        classes.items.as_slice(),
        &mut sets,
    )?;
    add_templates(alloc, asked, schema.groups.items.as_slice(), &mut sets)?;
    Ok(sets)
}
