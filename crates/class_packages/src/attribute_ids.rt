//! Which attributes an object has with the packages that its creation named, by rising identifier: X.720, section 5;
//! X.722, sections 5.2 and 8.3.

ghost use Rattle.std.specs.Prelude.{◌≡◌, ◌++◌, [], IfOk, OnOk, filter, flat_map};
ghost use Rattle.term_model.specs.Creation.{attributes_of, noted, noted_all, package_ids, stated_ids};
ghost use Rattle.term_model.specs.PresentPackages.{is_among, is_chosen, packages_by, packages_in};

use crate::superclasses::{classes_above, is_among};
use std::alloc::{AllocError, Global};
use std::cmp::Ordering;
use term_model::{ClassRec, ClassRecs, Oids, PackageRec, Set};
use term_values::Oid;

/// Appends the attributes that a package lists.
fn append_package(
    alloc: Global,
    of_package: &PackageRec,
    into: &mut Vec<Oid>,
) -> Result<(), AllocError>
    ensures { OnOk result (into.new.items ≡ into.old.items ++ package_ids of_package.now) }
{
    for stated in &of_package.attributes.items {
        into.push(stated.attribute.copy(alloc)?)?;
    }
    Ok(())
}

/// Appends the attributes that packages list.
fn append_packages(
    alloc: Global,
    packages: &[PackageRec],
    into: &mut Vec<Oid>,
) -> Result<(), AllocError>
    ensures { OnOk result (into.new.items ≡ into.old.items ++ stated_ids packages.now) }
{
    for of_package in packages {
        append_package(alloc, of_package, into)?;
    }
    Ok(())
}

/// Whether a creation that names these packages chose the package.
fn is_chosen(chosen: &[Oid], of_package: &PackageRec) -> bool
    ensures { result ≡ is_chosen chosen.now of_package.now }
{
    match &of_package.id {
        Some(id) => is_among(chosen, id),
        None => false,
    }
}

/// Appends the attributes that those packages list which a creation chose.
fn append_chosen(
    alloc: Global,
    packages: &[PackageRec],
    chosen: &[Oid],
    into: &mut Vec<Oid>,
) -> Result<(), AllocError>
    ensures { OnOk result (into.new.items
        ≡ into.old.items ++ stated_ids (filter (is_chosen chosen.now) packages.now)) }
{
    for of_package in packages {
        if is_chosen(chosen, of_package) {
            append_package(alloc, of_package, into)?;
        }
    }
    Ok(())
}

/// Appends the attributes that an object has by what a class itself states.
fn append_class(
    alloc: Global,
    of_class: &ClassRec,
    chosen: &[Oid],
    into: &mut Vec<Oid>,
) -> Result<(), AllocError>
    ensures { OnOk result (into.new.items ≡ into.old.items ++ stated_ids (packages_in chosen.now of_class.now)) }
{
    append_packages(alloc, &of_class.mandatory.items, into)?;
    append_chosen(alloc, &of_class.conditional.items, chosen, into)
}

/// The same of the class of an identifier, where that has a record.
fn append_by(
    alloc: Global,
    records: &ClassRecs,
    chosen: &[Oid],
    class: &Oid,
    into: &mut Vec<Oid>,
) -> Result<(), AllocError>
    ensures { OnOk result (into.new.items
        ≡ into.old.items ++ stated_ids (packages_by records.now chosen.now class.now)) }
{
    match records.find(class) {
        Some(of_class) => append_class(alloc, of_class, chosen, into),
        None => Ok(()),
    }
}

/// The attributes that an object has by what these classes state, as they list them.
fn stated_by(
    alloc: Global,
    records: &ClassRecs,
    chosen: &[Oid],
    classes: &[Oid],
) -> Result<Vec<Oid>, AllocError>
    ensures { IfOk result (λ stated. stated.items
        ≡ stated_ids (flat_map (packages_by records.now chosen.now) classes.now)) }
{
    let mut stated = Vec::new(alloc);
    for class in classes {
        append_by(alloc, records, chosen, class, &mut stated)?;
    }
    Ok(stated)
}

/// Notes an identifier among rising ones, once.
fn note(alloc: Global, id: &Oid, ids: &mut Vec<Oid>) -> Result<(), AllocError>
    ensures { OnOk result (ids.new.items ≡ noted id.now ids.old.items) }
{
    for (at, other) in ids.as_slice().iter().enumerate() {
        match id.cmp(other) {
            Ordering::Less => {
                let id = id.copy(alloc)?;
                ids.insert(at, id)?;
                return Ok(());
            }
            Ordering::Equal => return Ok(()),
            Ordering::Greater => {}
        }
    }
    ids.push(id.copy(alloc)?)?;
    Ok(())
}

/// These identifiers by rising arcs, each once.
fn noted_all(alloc: Global, ids: &[Oid]) -> Result<Vec<Oid>, AllocError>
    ensures { IfOk result (λ found. found.items ≡ noted_all [] ids.now) }
{
    let mut found = Vec::new(alloc);
    for id in ids {
        note(alloc, id, &mut found)?;
    }
    Ok(found)
}

/// The attributes of an object of a class with these packages, by rising identifier, each once.
pub fn attributes_of(
    alloc: Global,
    schema: &Set,
    class: &Oid,
    chosen: &[Oid],
) -> Result<Oids, AllocError>
    ensures { IfOk result (λ ids. ids ≡ attributes_of schema.now class.now chosen.now) }
{
    let classes = classes_above(alloc, &schema.classes, class)?;
    let stated = stated_by(alloc, &schema.classes, chosen, &classes.items)?;
    let items = noted_all(alloc, stated.as_slice())?;
    Ok(Oids { items })
}
