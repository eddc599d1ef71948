//! What came of a change of the members of a value, and what takes it back: X.711, type ModifyOperator.

ghost use Rattle.std.specs.Prelude.{◌≡◌, OnOk, true};
ghost use Rattle.term_values.specs.Typed.{TypedValue, listed};
ghost use Rattle.fitting_members.specs.TakingBack.{TakesBack, members_before, with_all, with_at};
ghost use Rattle.fitting_members.specs.TakingBack.{without_all, without_at};

use crate::placing::take_out;
use std::alloc::AllocError;
use term_values::{Value, ValueForm};

/// What came of adding members to a value of SET OF, or of removing them.
#[derive(Drop)]
pub struct MemberChange {
    /// Whether the value now fits its syntax and is one of each of the types that permit values.
    pub allowed: bool,
    /// How many octets the encodings of its members take together, or 2^64 - 1 where they take more.
    pub octets: u64,
    /// What takes the change back.
    pub undo: Undo,
}

/// A member that was removed.
#[derive(Drop)]
pub struct Removal {
    /// The place at which it stood.
    pub at: usize,
    /// The member.
    pub member: Value,
}

/// What takes a change of members back.
#[derive(Drop)]
pub enum Undo {
    /// Nothing was changed.
    Nothing,
    /// Members were added at these places, one after the other.
    Added(Vec<usize>),
    /// These members were removed, one after the other.
    Removed(Vec<Removal>),
}

/// A change that left everything as it was.
pub(crate) fn unchanged(octets: u64) -> MemberChange
    ensures kept { (result.allowed ≡ true) × (result.octets ≡ octets) }
    ensures undo { (value : TypedValue) → TakesBack result.undo value value }
{
    MemberChange {
        allowed: true,
        octets,
        undo: Undo::Nothing,
    }
}

/// Takes the member at a place out, where there is one.
fn take_at(at: usize, items: &mut Vec<Value>)
    ensures { listed items.new.items ≡ without_at at (listed items.old.items) }
{
    if at < items.as_slice().len() {
        take_out(items, at);
    }
}

/// Takes members out that were added at these places, the last first.
fn take_all(places: &[usize], items: &mut Vec<Value>)
    ensures { listed items.new.items ≡ without_all places.now (listed items.old.items) }
{
    for i in (0..places.len()).rev() {
        take_at(places[i], items);
    }
}

/// Puts a member in at its place, or behind all where there is no such place.
fn put_at(removal: Removal, items: &mut Vec<Value>) -> Result<(), AllocError>
    ensures { OnOk result (listed items.new.items
        ≡ with_at removal.at removal.member (listed items.old.items)) }
{
    let Removal { at, member } = removal;
    let place = at.min(items.as_slice().len());
    items.insert(place, member)?;
    Ok(())
}

/// Puts members in that were removed, the last first.
fn put_all(removals: Vec<Removal>, items: &mut Vec<Value>) -> Result<(), AllocError>
    ensures { OnOk result (listed items.new.items ≡ with_all removals.items (listed items.old.items)) }
{
    let mut left = removals;
    while let Some(removal) = left.pop() {
        put_at(removal, items)?;
    }
    Ok(())
}

/// Takes a change of members back.
fn restore(undo: Undo, items: &mut Vec<Value>) -> Result<(), AllocError>
    ensures { OnOk result (listed items.new.items ≡ members_before undo (listed items.old.items)) }
{
    match undo {
        Undo::Nothing => Ok(()),
        Undo::Added(places) => {
            take_all(places.as_slice(), items);
            Ok(())
        }
        Undo::Removed(removals) => put_all(removals, items),
    }
}

/// Takes a change back. No memory is asked for where the value is as the change left it, since members that are taken
/// out leave their room. After an error nothing is promised of the value.
pub fn take_back(value: &mut Value, undo: Undo) -> Result<(), AllocError>
    ensures { OnOk result ((before : TypedValue) → TakesBack undo value.old before → value.new ≡ before) }
{
    match &mut value.form {
        ValueForm::Many(values) => restore(undo, &mut values.items),
        _ => Ok(()),
    }
}
