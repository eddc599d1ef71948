//! The identifiers that a Get's list has: X.711, section 7.4, attributeIdList.

ghost use Rattle.std.specs.Prelude.{◌≡◌, ◌||◌, ℕ, List, IfOk, OnOk, not};
ghost use Rattle.term_model.specs.declared.request.IdRef.{IdRef};
ghost use Rattle.term_model.specs.ObjectGet.{asks_for, has_attribute, is_global, is_same_id, is_used, lists, uses_of};
ghost use Rattle.op_object.specs.IdSets.{Adds, has_id, has_ref};

use crate::group_uses::{GroupSets, group_sets};
use crate::id_sets::add_id;
use std::alloc::{AllocError, Global};
use std::collections::BTreeSet;
use term_model::{Attribute, IdRef, Object, Set};
use term_values::Oid;

/// Identifiers that came so far.
#[derive(Drop)]
pub(crate) struct SeenIds {
    /// Those in globalForm.
    pub(crate) globals: BTreeSet<Oid>,
    /// Those in localForm.
    pub(crate) locals: BTreeSet<i64>,
}

/// Adds an identifier, and tells whether it is a new one.
pub(crate) fn note_id(alloc: Global, id: &IdRef, seen: &mut SeenIds) -> Result<bool, AllocError>
    ensures told { IfOk result (λ fresh. fresh ≡ not (has_ref seen.old.globals seen.old.locals id.now)) }
    ensures noted { OnOk result ((e : IdRef) → has_ref seen.new.globals seen.new.locals e
        ≡ (is_same_id id.now e || has_ref seen.old.globals seen.old.locals e)) }
{
    match id {
        IdRef::Global(id) => {
            if seen.globals.contains(id) {
                return Ok(false);
            }
            add_id(alloc, id, &mut seen.globals)?;
        }
        IdRef::Local(number) => {
            if seen.locals.contains(number) {
                return Ok(false);
            }
            seen.locals.insert(*number)?;
        }
    }
    Ok(true)
}

/// Adds an identifier that is in globalForm.
fn add_global(alloc: Global, id: &IdRef, ids: &mut BTreeSet<Oid>) -> Result<(), AllocError>
    ensures { OnOk result (Adds (λ q. is_global q id.now) ids.old ids.new) }
{
    match id {
        IdRef::Global(id) => add_id(alloc, id, ids),
        IdRef::Local(_) => Ok(()),
    }
}

/// Adds the identifiers that are in globalForm.
fn add_globals(alloc: Global, added: &[IdRef], ids: &mut BTreeSet<Oid>) -> Result<(), AllocError>
    ensures { OnOk result (Adds (lists added.now) ids.old ids.new) }
{
    for id in added {
        add_global(alloc, id, ids)?;
    }
    Ok(())
}

/// The identifiers of attributes.
pub(crate) fn attribute_ids(
    alloc: Global,
    attributes: &[Attribute],
) -> Result<BTreeSet<Oid>, AllocError>
    ensures { IfOk result (λ ids. (q : List ℕ) → has_id ids q ≡ has_attribute attributes.now q) }
{
    let mut ids = BTreeSet::new(alloc);
    for attribute in attributes {
        add_id(alloc, &attribute.id, &mut ids)?;
    }
    Ok(ids)
}

/// The groups that packages of an object use, and the attributes that a list asks for by themselves or by a group.
pub(crate) fn asked_sets(
    alloc: Global,
    schema: &Set,
    object: &Object,
    asked: &[IdRef],
) -> Result<GroupSets, AllocError>
    ensures used { IfOk result (λ sets. (q : List ℕ) → has_id sets.used q
        ≡ is_used (uses_of schema.now object.now) q) }
    ensures wanted { IfOk result (λ sets. (q : List ℕ) → has_id sets.members q
        ≡ asks_for schema.now (uses_of schema.now object.now) asked.now q) }
{
    let mut ids = BTreeSet::new(alloc);
    add_globals(alloc, asked, &mut ids)?;
    let mut sets = group_sets(alloc, schema, object, &ids)?;
    add_globals(alloc, asked, &mut sets.members)?;
    Ok(sets)
}
