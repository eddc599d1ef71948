//! The members of a SET OF by the rising order of their encodings: X.690, section 11.6.

ghost use Rattle.std.specs.Prelude.{◌==◌, ◌≡◌, IfOk};
ghost use Rattle.std.specs.Ordering.{nat_cmp, as_partial_cmp};
ghost use Rattle.std.specs.Cmp.Lexicographic.{pointwise, slice_cmp};
ghost use Rattle.std.specs.Cmp.{partial_order_from_own_ties};
ghost use Rattle.std.specs.Cmp.Rules.{comparing};
ghost use Rattle.std.proofs.Common.{rules};
ghost use Rattle.ber_values.specs.MemberOrder.{beside, members_of};
ghost use Rattle.term_values.specs.Decoding.{rising_by};
ghost use Rattle.term_values.specs.Written.{der};

use crate::encoding::encode_into;
use std::alloc::{AllocError, Global};
use std::cmp::Ordering;
use term_values::{Bytes, Syntax, Value, Values};

/// A member beside its encoding, by which members are compared.
#[derive(Drop)]
struct Member {
    octets: Bytes,
    value: Value,
}

impl PartialEq for Member {
    ghost eq = { λ a b. pointwise ◌==◌ a.octets b.octets };

    ghost laws = { Prim.search (comparing, rules) };

    fn eq(&self, other: &Member) -> bool {
        self.octets == other.octets
    }
}

impl Eq for Member {
    ghost laws = { Prim.search (comparing, rules) };
}

impl Ord for Member {
    ghost cmp = { λ a b. slice_cmp nat_cmp a.octets b.octets };

    ghost total = { Prim.search (comparing, rules) };

    ghost matches_partial_cmp = { Prim.search (comparing, rules) };

    ghost matches_eq = { Prim.search (comparing, rules) };

    fn cmp(&self, other: &Member) -> Ordering {
        self.octets.cmp(&other.octets)
    }
}

impl PartialOrd for Member {
    ghost partial_cmp = { as_partial_cmp (λ a b. slice_cmp nat_cmp a.octets b.octets) };

    ghost laws = { partial_order_from_own_ties (Prim.search (comparing, rules)) (Prim.search (comparing, rules)) };

    fn partial_cmp(&self, other: &Member) -> Option<Ordering> {
        Some(self.cmp(other))
    }
}

/// Each member beside its encoding.
fn beside(alloc: Global, member: &Syntax, values: Values) -> Result<Vec<Member>, AllocError>
    ensures { IfOk result (λ found. found.items ≡ beside (der member.now) values) }
{
    let mut found = Vec::new(alloc);
    for value in values.items {
        let mut items = Vec::new(alloc);
        encode_into(alloc, member, &value, &mut items)?;
        found.push(Member {
            octets: Bytes { items },
            value,
        })?;
    }
    Ok(found)
}

/// The members alone.
fn members_of(alloc: Global, members: Vec<Member>) -> Result<Values, AllocError>
    ensures { IfOk result (λ values. values ≡ members_of members.items) }
{
    let mut items = Vec::new(alloc);
    for member in members {
        items.push(member.value)?;
    }
    Ok(Values { items })
}

/// The members by the rising order of their encodings, in the time of a sort. Members with one encoding keep their
/// order.
pub fn rising_members(alloc: Global, member: &Syntax, values: Values) -> Result<Values, AllocError>
    ensures { IfOk result (λ sorted. sorted ≡ rising_by (der member.now) values) }
{
    let mut members = beside(alloc, member, values)?;
    members.sort()?;
    members_of(alloc, members)
}
