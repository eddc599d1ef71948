//! What is joined of an attribute: operations, permitted and required types by union, defaults and initial values where
//! they are equal (X.722, section 8.4; docs/PROFILE.md, section 18).

ghost use Rattle.std.specs.Prelude.{◌≡◌, ◌||◌, ℕ, IfOk, OnOk};
ghost use Rattle.std.specs.BTreeSet.{contains};
ghost use Rattle.std.specs.Option.{option_copied};
ghost use Rattle.std.specs.Ordering.{nat_cmp};
ghost use Rattle.joined_statements.specs.JoinedStatements.{AreJoined, IsCopy, IsJoined, IsJoinedAt, IsJoinedTo};
ghost use Rattle.joined_statements.specs.JoinedStatements.{first_held, join_held};

use crate::held::{AssignedValues, Held, handed_on, hiding};
use std::alloc::AllocError;
use std::collections::{BTreeMap, BTreeSet};

/// What is stated of an attribute.
#[derive(Drop)]
pub struct Joined {
    /// GET
    pub get: bool,
    /// REPLACE
    pub replace: bool,
    /// ADD
    pub add: bool,
    /// REMOVE
    pub remove: bool,
    /// REPLACE-WITH-DEFAULT
    pub set_to_default: bool,
    /// DEFAULT VALUE
    pub default: Held,
    /// INITIAL VALUE
    pub initial: Held,
    /// The places of the types of PERMITTED VALUES.
    pub permitted: BTreeSet<usize>,
    /// The places of the types of REQUIRED VALUES.
    pub required: BTreeSet<usize>,
}

/// What is stated of attributes, each told by its place.
pub type JoinedAttributes = BTreeMap<usize, Joined>;

/// Which statements are joined.
#[derive(Clone, Copy, PartialEq, Eq)]
pub enum Joining {
    /// Those of packages of one class.
    Beside,
    /// What a class inherits from one superclass with what it inherits from others.
    Inherited,
    /// What a class states itself with what it inherits.
    Own,
}

/// The numbers of two sets.
fn union(one: &BTreeSet<usize>, other: &BTreeSet<usize>) -> Result<BTreeSet<usize>, AllocError>
    ensures { IfOk result (λ both. (q : ℕ)
        → contains nat_cmp both q ≡ (contains nat_cmp one.now q || contains nat_cmp other.now q)) }
{
    one | other
}

/// A copy of a set of numbers.
fn copied(numbers: &BTreeSet<usize>) -> Result<BTreeSet<usize>, AllocError>
    ensures { IfOk result (λ copy. (q : ℕ) → contains nat_cmp copy q ≡ contains nat_cmp numbers.now q) }
{
    numbers.clone()
}

/// What is held once a further default, or initial value, is joined.
fn join_held(values: &AssignedValues, how: Joining, before: Held, other: Held) -> Held
    ensures { result ≡ join_held values.now.items.now how before other }
{
    match how {
        Joining::Beside => values.both(before, other),
        Joining::Inherited => values.both(before, handed_on(other)),
        Joining::Own => hiding(other, before),
    }
}

/// What is held of the first default, or initial value.
fn first_held(how: Joining, other: Held) -> Held
    ensures { result ≡ first_held how other }
{
    match how {
        Joining::Inherited => handed_on(other),
        _ => other,
    }
}

/// What is joined of an attribute of which nothing was stated before.
fn first_statement(how: Joining, other: &Joined) -> Result<Joined, AllocError>
    ensures { IfOk result (IsCopy how other.now) }
{
    let permitted = copied(&other.permitted)?;
    let required = copied(&other.required)?;
    Ok(Joined {
        get: other.get,
        replace: other.replace,
        add: other.add,
        remove: other.remove,
        set_to_default: other.set_to_default,
        default: first_held(how, other.default),
        initial: first_held(how, other.initial),
        permitted,
        required,
    })
}

/// What is joined of an attribute with a further statement.
fn further_statement(
    values: &AssignedValues,
    how: Joining,
    before: &Joined,
    other: &Joined,
) -> Result<Joined, AllocError>
    ensures { IfOk result (IsJoinedTo values.now.items.now how before.now other.now) }
{
    let permitted = union(&before.permitted, &other.permitted)?;
    let required = union(&before.required, &other.required)?;
    Ok(Joined {
        get: before.get || other.get,
        replace: before.replace || other.replace,
        add: before.add || other.add,
        remove: before.remove || other.remove,
        set_to_default: before.set_to_default || other.set_to_default,
        default: join_held(values, how, before.default, other.default),
        initial: join_held(values, how, before.initial, other.initial),
        permitted,
        required,
    })
}

/// What is joined of an attribute with a further statement, where something was stated before.
fn joined_with(
    values: &AssignedValues,
    how: Joining,
    before: Option<&Joined>,
    other: &Joined,
) -> Result<Joined, AllocError>
    ensures { IfOk result (IsJoined values.now.items.now how (option_copied before.entry) other.now) }
{
    match before {
        Some(joined) => further_statement(values, how, joined, other),
        None => first_statement(how, other),
    }
}

/// Joins what is stated of an attribute.
pub fn join_one(
    values: &AssignedValues,
    how: Joining,
    attributes: &mut JoinedAttributes,
    attribute: usize,
    other: &Joined,
) -> Result<(), AllocError>
    ensures { OnOk result (IsJoinedAt values.now.items.now how attributes.old attribute other.now attributes.new) }
{
    let joined = joined_with(values, how, attributes.get(&attribute), other)?;
    attributes.insert(attribute, joined)?;
    Ok(())
}

/// Joins what is stated of many attributes.
pub fn join_many(
    values: &AssignedValues,
    how: Joining,
    attributes: &mut JoinedAttributes,
    others: &JoinedAttributes,
) -> Result<(), AllocError>
    ensures { OnOk result (AreJoined values.now.items.now how attributes.old others.now attributes.new) }
{
    for (attribute, other) in others.iter() {
        join_one(values, how, attributes, *attribute, other)?;
    }
    Ok(())
}
