//! Sets of identifiers: X.711, types AttributeId and Attribute; X.722, REGISTERED AS.

ghost use Rattle.std.specs.Prelude.{◌≡◌, ℕ, List, IfOk, OnOk, false};
ghost use Rattle.std.specs.BTreeSet.{contains};
ghost use Rattle.term_model.specs.Comparing.{is_same_oid};
ghost use Rattle.term_model.specs.PresentPackages.{is_among};
ghost use Rattle.op_object.specs.IdSets.{Adds, has_id};

use std::alloc::{AllocError, Global};
use std::collections::BTreeSet;
use term_values::Oid;

/// Adds an identifier.
pub(crate) fn add_id(alloc: Global, id: &Oid, ids: &mut BTreeSet<Oid>) -> Result<(), AllocError>
    ensures { OnOk result (Adds (is_same_oid id.now) ids.old ids.new) }
{
    let id = id.copy(alloc)?;
    ids.insert(id)?;
    Ok(())
}

/// Adds identifiers.
pub(crate) fn add_ids(
    alloc: Global,
    added: &[Oid],
    ids: &mut BTreeSet<Oid>,
) -> Result<(), AllocError>
    ensures { OnOk result (Adds (is_among added.now) ids.old ids.new) }
{
    for id in added {
        add_id(alloc, id, ids)?;
    }
    Ok(())
}

/// The identifiers of a list.
pub(crate) fn id_set(alloc: Global, listed: &[Oid]) -> Result<BTreeSet<Oid>, AllocError>
    ensures { IfOk result (λ ids. (q : List ℕ) → has_id ids q ≡ is_among listed.now q) }
{
    let mut ids = BTreeSet::new(alloc);
    add_ids(alloc, listed, &mut ids)?;
    Ok(ids)
}
