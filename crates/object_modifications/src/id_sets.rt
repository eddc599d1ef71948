//! Sets of identifiers: X.711, type AttributeId.

ghost use Rattle.std.specs.Prelude.{◌≡◌, ◌||◌, ℕ, List, IfOk, OnOk};
ghost use Rattle.std.specs.BTreeSet.{contains};
ghost use Rattle.std.specs.Cmp.Lexicographic.{slice_cmp};
ghost use Rattle.std.specs.Ordering.{nat_cmp};
ghost use Rattle.term_model.specs.Comparing.{is_same_oid};
ghost use Rattle.term_model.specs.PresentPackages.{is_among};

use std::alloc::{AllocError, Global};
use std::collections::BTreeSet;
use term_values::Oid;

/// Adds an identifier.
fn add_id(alloc: Global, id: &Oid, ids: &mut BTreeSet<Oid>) -> Result<(), AllocError>
    ensures { OnOk result ((q : List ℕ) → contains (slice_cmp nat_cmp) ids.new q
        ≡ (contains (slice_cmp nat_cmp) ids.old q || is_same_oid id.now q)) }
{
    let id = id.copy(alloc)?;
    ids.insert(id)?;
    Ok(())
}

/// The identifiers of a list, among which one is found in a time that grows with the logarithm of their number.
pub(crate) fn id_set(alloc: Global, listed: &[Oid]) -> Result<BTreeSet<Oid>, AllocError>
    ensures { IfOk result (λ ids. (q : List ℕ)
        → contains (slice_cmp nat_cmp) ids q ≡ is_among listed.now q) }
{
    let mut ids = BTreeSet::new(alloc);
    for id in listed {
        add_id(alloc, id, &mut ids)?;
    }
    Ok(ids)
}
