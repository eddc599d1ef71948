//! The classes from which a class derives: X.722, section 5.2.

ghost use Rattle.std.specs.Prelude.{◌≡◌, ◌++◌, IfOk, OnOk, flat_map};
ghost use Rattle.term_model.specs.PresentPackages.{classes_above, is_among, is_chosen, superclasses, with_new};

use std::alloc::{AllocError, Global};
use term_model::{ClassRecs, Oids, PackageRec};
use term_values::Oid;

/// The identifier is among these.
pub fn is_among(ids: &[Oid], id: &Oid) -> bool
    ensures { result ≡ is_among ids.now id.now }
{
    for other in ids {
        if other == id {
            return true;
        }
    }
    false
}

/// The creation chose the package.
pub fn is_chosen(chosen: &Oids, of_package: &PackageRec) -> bool
    ensures { result ≡ is_chosen chosen.now of_package.now }
{
    match &of_package.id {
        Some(id) => is_among(chosen.items.as_slice(), id),
        None => false,
    }
}

/// Adds the identifiers that are not among those found, each once.
fn add_new(alloc: Global, ids: &[Oid], found: &mut Vec<Oid>) -> Result<(), AllocError>
    ensures { OnOk result (found.new.items ≡ with_new found.old.items ids.now) }
{
    for id in ids {
        if !is_among(found.as_slice(), id) {
            found.push(id.copy(alloc)?)?;
        }
    }
    Ok(())
}

/// Appends the classes from which a class directly derives.
fn append_superclasses(
    alloc: Global,
    records: &ClassRecs,
    class: &Oid,
    into: &mut Vec<Oid>,
) -> Result<(), AllocError>
    ensures { OnOk result (into.new.items ≡ into.old.items ++ superclasses records.now class.now) }
{
    if let Some(of_class) = records.find(class) {
        for id in &of_class.superclasses.items {
            into.push(id.copy(alloc)?)?;
        }
    }
    Ok(())
}

/// The classes from which these directly derive.
fn all_superclasses(
    alloc: Global,
    records: &ClassRecs,
    classes: &[Oid],
) -> Result<Vec<Oid>, AllocError>
    ensures { IfOk result (λ found. found.items ≡ flat_map (superclasses records.now) classes.now) }
{
    let mut found = Vec::new(alloc);
    for class in classes {
        append_superclasses(alloc, records, class, &mut found)?;
    }
    Ok(found)
}

/// A class, and all classes from which it derives, directly or not. Ends with the first round that finds none.
pub fn classes_above(alloc: Global, records: &ClassRecs, class: &Oid) -> Result<Oids, AllocError>
    ensures { IfOk result (λ found. found ≡ classes_above records.now class.now) }
{
    let mut items = Vec::new(alloc);
    items.push(class.copy(alloc)?)?;
    for _round in 0..records.as_slice().len() {
        let before = items.as_slice().len();
        let above = all_superclasses(alloc, records, items.as_slice())?;
        add_new(alloc, above.as_slice(), &mut items)?;
        if items.as_slice().len() == before {
            break;
        }
    }
    Ok(Oids { items })
}
