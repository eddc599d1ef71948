//! Object identifiers: X.660, clause 7, and X.690, section 8.19.

ghost use Rattle.std.specs.Prelude.{◌==◌, ◌≡◌, ◌↔◌, ◌<◌, IsSome, IfSome, IfOk, IsTrue, length, true};
ghost use Rattle.std.specs.Ordering.{nat_cmp, as_partial_cmp};
ghost use Rattle.std.specs.Cmp.Lexicographic.{pointwise, slice_cmp};
ghost use Rattle.std.specs.Cmp.{partial_order_from_own_ties};
ghost use Rattle.std.specs.Cmp.Rules.{comparing};
ghost use Rattle.std.proofs.Common.{rules};
ghost use Rattle.term_values.specs.Oid.{is_oid, is_arc, begins};
ghost use Rattle.std.specs.List.{list_all};

use std::alloc::{AllocError, Global};
use std::cmp::Ordering;
use std::fmt;
use std::marker::Model;

/// The most arcs that an identifier has.
pub const MOST_ARCS: usize = 64;

/// Arcs below a first arc of 0 or 1 are below this number.
pub const SECOND_ARCS: u32 = 40;

/// The greatest second arc below the first arc 2: with 80 added it is the greatest number of 32 bits.
pub const LAST_SECOND_ARC: u32 = 4_294_967_215;

/// An object identifier: 2 to 64 arcs, the first from 0 to 2, the second below 40 unless the first is 2.
/// Comparison is by the first arc that differs, an identifier before what it begins.
#[derive(Drop)]
pub struct Oid {
    arcs: Vec<u32>,
}

impl Model for Oid {
    ghost use Rattle.std.specs.Prelude.{ℕ, List, IsTrue};
    ghost use Rattle.term_values.specs.Oid.{is_oid};

    ghost Value = { List ℕ };

    ghost view = { λ oid. oid.arcs.items };

    ghost invariant = { λ oid. IsTrue (is_oid oid.arcs.items) };
}

fn may_begin_with(first: u32, second: u32) -> bool
    ensures { result ≡ begins first second }
{
    (first < 2 && second < SECOND_ARCS) || (first == 2 && second <= LAST_SECOND_ARC)
}

impl Oid {
    /// The identifier of these arcs, or none where they are no identifier.
    pub fn from_arcs(arcs: Vec<u32>) -> Option<Oid>
        ensures found { IsSome result ↔ IsTrue (is_oid arcs.items) }
        ensures arcs { IfSome result (λ oid. oid ≡ arcs.items) }
    {
        match arcs.as_slice() {
            [first, second, ..] if arcs.len() <= MOST_ARCS && may_begin_with(*first, *second) => {
                Some(Oid { arcs })
            }
            _ => None,
        }
    }

    /// A copy of this identifier.
    pub fn copy(&self, alloc: Global) -> Result<Oid, AllocError>
        ensures { IfOk result (λ oid. oid ≡ self.now) }
    {
        Ok(Oid {
            arcs: Vec::from_slice(alloc, self.arcs.as_slice())?,
        })
    }

    /// The arcs, the first one first.
    pub fn arcs(&self) -> &[u32]
        ensures arcs { result.now ≡ self.now }
        ensures identifier { IsTrue (is_oid self.now) }
        ensures numbers { list_all is_arc self.now ≡ true }
    {
        let arcs = self.arcs.as_slice();
        arcs
    }
}

impl PartialEq for Oid {
    ghost eq = { pointwise ◌==◌ };

    ghost laws = { Prim.search (comparing, rules) };

    fn eq(&self, other: &Oid) -> bool {
        self.arcs.as_slice() == other.arcs.as_slice()
    }
}

impl Eq for Oid {
    ghost laws = { Prim.search (comparing, rules) };
}

impl Ord for Oid {
    ghost cmp = { slice_cmp nat_cmp };

    ghost total = { Prim.search (comparing, rules) };

    ghost matches_partial_cmp = { Prim.search (comparing, rules) };

    ghost matches_eq = { Prim.search (comparing, rules) };

    fn cmp(&self, other: &Oid) -> Ordering {
        self.arcs.as_slice().cmp(other.arcs.as_slice())
    }
}

impl PartialOrd for Oid {
    ghost partial_cmp = { as_partial_cmp (slice_cmp nat_cmp) };

    ghost laws = { partial_order_from_own_ties (Prim.search (comparing, rules)) (Prim.search (comparing, rules)) };

    fn partial_cmp(&self, other: &Oid) -> Option<Ordering> {
        Some(self.cmp(other))
    }
}

impl fmt::Debug for Oid {
    fn fmt<W: fmt::Write>(&self, f: &mut fmt::Formatter<W>) -> fmt::Result {
        fmt::Debug::fmt(&self.arcs, f)
    }
}
