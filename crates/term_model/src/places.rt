//! Where records stand in their list, by the identifiers under which they are registered: X.722, REGISTERED AS.

ghost use Rattle.std.specs.Prelude.{◌≡◌, ℕ, List, OnErr, OnOk};
ghost use Rattle.std.specs.BTreeMap.{IsUnchanged, get};
ghost use Rattle.std.specs.Cmp.Lexicographic.{slice_cmp};
ghost use Rattle.std.specs.Ordering.{nat_cmp};
ghost use Rattle.term_model.specs.Places.{place_with};

use std::alloc::AllocError;
use std::collections::BTreeMap;
use term_values::Oid;

/// The places of records in their list, by identifier.
pub(crate) type Places = BTreeMap<Oid, usize>;

/// Adds the place of a record, where no record with its identifier has one yet.
pub(crate) fn add_place(places: &mut Places, id: Oid, place: usize) -> Result<(), AllocError>
    ensures added { OnOk result ((q : List ℕ) → get (slice_cmp nat_cmp) places.new q
        ≡ place_with id place q (get (slice_cmp nat_cmp) places.old q)) }
    ensures kept { OnErr result (IsUnchanged places.old places.new) }
{
    if !places.contains_key(&id) {
        places.insert(id, place)?;
    }
    Ok(())
}
