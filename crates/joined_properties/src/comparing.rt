//! Whether tables say the same of each attribute, up to which of equal values is told (X.722, section 8.4;
//! docs/PROFILE.md, section 18).

ghost use Rattle.std.specs.Prelude.{◌≡◌, ℕ, true, Some};
ghost use Rattle.std.specs.BTreeMap.{get};
ghost use Rattle.std.specs.BTreeSet.{contains};
ghost use Rattle.std.specs.Ordering.{nat_cmp};
ghost use Rattle.joined_properties.specs.SameTables.{AreKept, AreSameTables, IsKept, IsSame, are_alike};

use joined_statements::{AssignedValues, Held, Joined, JoinedAttributes};
use std::collections::BTreeSet;

/// Whether the one says what the other says.
fn are_alike(values: &AssignedValues, one: Held, other: Held) -> bool
    ensures { result ≡ are_alike values.now.items.now one other }
{
    match (one, other) {
        (Held::Nothing, Held::Nothing) => true,
        (Held::NoValue, Held::NoValue) => true,
        (Held::One(_), Held::One(_)) => values.both(one, other) != Held::Unequal,
        (Held::Unequal, Held::Unequal) => true,
        _ => false,
    }
}

/// Whether two sets have the same numbers.
fn have_same(one: &BTreeSet<usize>, other: &BTreeSet<usize>) -> bool
    ensures { result ≡ true → (q : ℕ) → contains nat_cmp one.now q ≡ contains nat_cmp other.now q }
{
    one == other
}

/// Whether two allow the same operations.
fn allow_same(one: &Joined, other: &Joined) -> bool
    ensures get { result ≡ true → one.now.get ≡ other.now.get }
    ensures replace { result ≡ true → one.now.replace ≡ other.now.replace }
    ensures add { result ≡ true → one.now.add ≡ other.now.add }
    ensures remove { result ≡ true → one.now.remove ≡ other.now.remove }
    ensures set_to_default { result ≡ true → one.now.set_to_default ≡ other.now.set_to_default }
{
    one.get == other.get
        && one.replace == other.replace
        && one.add == other.add
        && one.remove == other.remove
        && one.set_to_default == other.set_to_default
}

/// Whether two say the same.
fn is_same(values: &AssignedValues, one: &Joined, other: &Joined) -> bool
    ensures { result ≡ true → IsSame values.now.items.now one.now other.now }
{
    allow_same(one, other)
        && have_same(&one.permitted, &other.permitted)
        && have_same(&one.required, &other.required)
        && are_alike(values, one.default, other.default)
        && are_alike(values, one.initial, other.initial)
}

/// Whether a table says the same of an attribute.
fn is_kept(
    values: &AssignedValues,
    attribute: usize,
    one: &Joined,
    other: &JoinedAttributes,
) -> bool
    ensures { result ≡ true → IsKept values.now.items.now (Some one.now) (get nat_cmp other.now attribute) }
{
    match other.get(&attribute) {
        Some(joined) => is_same(values, one, joined),
        None => false,
    }
}

/// Whether what the one table says of each attribute the other one says too.
fn are_kept(values: &AssignedValues, one: &JoinedAttributes, other: &JoinedAttributes) -> bool
    ensures { result ≡ true → AreKept values.now.items.now one.now other.now }
{
    for (attribute, joined) in one.iter() {
        let kept = is_kept(values, *attribute, joined, other);
        if !kept {
            return false;
        }
    }
    true
}

/// Whether two tables say the same of each attribute.
pub fn are_same_tables(
    values: &AssignedValues,
    one: &JoinedAttributes,
    other: &JoinedAttributes,
) -> bool
    ensures { result ≡ true → AreSameTables values.now.items.now one.now other.now }
{
    are_kept(values, one, other) && are_kept(values, other, one)
}
