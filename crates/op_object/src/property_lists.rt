//! Which attributes of the objects of a class managers may read: X.722, section 8.4, the property list.

ghost use Rattle.std.specs.Prelude.{◌≡◌, ◌||◌, ℕ, List, IfOk, OnOk};
ghost use Rattle.std.specs.BTreeSet.{contains};
ghost use Rattle.std.specs.Cmp.Lexicographic.{slice_cmp};
ghost use Rattle.std.specs.List.{list_any};
ghost use Rattle.std.specs.Ordering.{nat_cmp};
ghost use Rattle.term_model.specs.ObjectOperation.{is_readable, lets_read};

use std::alloc::{AllocError, Global};
use std::collections::BTreeSet;
use term_model::{Property, Set};
use term_values::Oid;

/// Adds the attribute of a property that lets managers read it.
fn add_property(
    alloc: Global,
    property: &Property,
    ids: &mut BTreeSet<Oid>,
) -> Result<(), AllocError>
    ensures { OnOk result ((q : List ℕ) → contains (slice_cmp nat_cmp) ids.new q
        ≡ (contains (slice_cmp nat_cmp) ids.old q || lets_read q property.now)) }
{
    if property.get {
        let id = property.attribute.copy(alloc)?;
        ids.insert(id)?;
    }
    Ok(())
}

/// Adds the attributes that a property list lets managers read.
fn add_properties(
    alloc: Global,
    properties: &[Property],
    ids: &mut BTreeSet<Oid>,
) -> Result<(), AllocError>
    ensures { OnOk result ((q : List ℕ) → contains (slice_cmp nat_cmp) ids.new q
        ≡ (contains (slice_cmp nat_cmp) ids.old q || list_any (lets_read q) properties.now)) }
{
    for property in properties {
        add_property(alloc, property, ids)?;
    }
    Ok(())
}

/// The identifiers of the attributes that managers may read of objects of this class.
pub fn readable_attributes(
    alloc: Global,
    schema: &Set,
    class: &Oid,
) -> Result<BTreeSet<Oid>, AllocError>
    ensures { IfOk result (λ ids. (q : List ℕ)
        → contains (slice_cmp nat_cmp) ids q ≡ is_readable schema.now class.now q) }
{
    let mut ids = BTreeSet::new(alloc);
    if let Some(record) = schema.classes.find(class) {
        add_properties(alloc, &record.properties.items, &mut ids)?;
    }
    Ok(ids)
}
