//! The associations by number, with what a BIND asks of all of them, and the places of the journal that are reserved for
//! them: docs/PROFILE.md, section 7.

ghost use Rattle.std.specs.Prelude.{◌≡◌, ◌+◌, ◌^◌, ◌<◌, ◌≤◌, ◌==◌, ◌++◌, ◌∷◌, [], false, length, not};
ghost use Rattle.std.specs.Prelude.{ℕ, OnOk, Some, true, vec_capacity, vec_len};
ghost use Rattle.std.specs.List.{filter, list_any};
ghost use Rattle.std.specs.Option.{option_copied, option_map_or};
ghost use Rattle.agent_model.specs.declared.agent_state.Association.{Association};
ghost use Rattle.agent_model.specs.AgentState.{is_closed_state, numbered};
ghost use Rattle.agent_model.specs.Step.{changed_association, with_placed, with_state};
ghost use Rattle.agent_model.specs.Binding.{count_open, has_title, is_open};
ghost use Rattle.agent_model.specs.JournalRoom.{reserved_by_associations};
ghost use Rattle.agent_model.specs.Performing.{with_own};
ghost use Rattle.agent_steps.specs.Admitting.{is_admitted, with_all_taken};

use crate::association_changes::{
    add_association, is_closed, is_closed_at, place, places_of_live, places_of_live_at,
    set_association_state, set_own, take_placed,
};
use agent_model::{Association, AssociationState, Associations};
use std::alloc::{AllocError, Global};
use std::marker::Model;
use term_values::Oid;

/// The result of a BIND that is accepted.
pub const ACCEPTED: u8 = 0;

/// The result of a BIND whose title an association has that was admitted and is not closed.
pub const TITLE_IN_USE: u8 = 1;

/// The result of octets that are no BIND.
pub const BAD_BIND: u8 = 2;

/// The result of a BIND while as many associations as may be are not closed.
pub const TOO_MANY: u8 = 3;

/// The associations by number, the first of which is 1; how many of them are not closed, how many of these are live, and
/// which of them were admitted.
#[derive(Drop)]
pub struct AssociationTable {
    associations: Associations,
    /// How many are not closed.
    unclosed: u64,
    /// How many are live.
    live: u64,
    /// The numbers of those that were admitted and are not closed.
    admitted: Vec<u64>,
}

impl Model for AssociationTable {
    ghost use Rattle.std.specs.Prelude.{List};
    ghost use Rattle.agent_model.specs.declared.agent_state.Association.{Association};
    ghost use Rattle.agent_steps.specs.Admitting.{AreCounted};

    ghost Value = { List Association };

    ghost view = { λ table. table.associations };

    ghost invariant = { λ table. AreCounted table.associations table.unclosed table.live
        table.admitted.items };
}

/// Whether an association is not closed and has this title.
fn has_title(association: &Association, title: &Oid) -> bool
    ensures { result ≡ has_title title.now association.now }
{
    if is_closed(association.state) {
        return false;
    }
    match &association.title {
        Some(one) => title == one,
        None => false,
    }
}

/// Whether an association was admitted and is not closed.
fn is_admitted(association: &Association) -> bool
    ensures { result ≡ is_admitted association.now }
{
    !is_closed(association.state) && association.title.is_some()
}

/// The association under this number.
fn at(associations: &Associations, number: u64) -> Option<&Association>
    ensures { option_copied result ≡ numbered associations.now number }
{
    if number == 0 {
        return None;
    }
    associations.items.get((number - 1) as usize)
}

/// Whether there is an association under this number that is not closed and has this title.
fn has_title_at(associations: &Associations, number: u64, title: &Oid) -> bool
    ensures { result ≡ option_map_or (has_title title.now) (numbered associations.now number) false }
{
    match at(associations, number) {
        Some(association) => has_title(association, title),
        None => false,
    }
}

/// Whether one of the associations under these numbers is not closed and has this title.
fn any_has_title(associations: &Associations, numbers: &[u64], title: &Oid) -> bool
    ensures { result ≡ list_any (λ n. option_map_or (has_title title.now) (numbered associations.now n) false)
        numbers.now }
{
    for number in numbers {
        if let Some(association) = at(associations, *number)
            && has_title(association, title)
        {
            return true;
        }
    }
    false
}

/// Takes a number out of these.
fn withdraw(admitted: &mut Vec<u64>, number: u64)
    ensures { admitted.new.items ≡ filter (λ n. not (n == number)) admitted.old.items }
{
    admitted.retain(|n| *n != number);
}

/// Writes a number down for which there is room.
fn write_down(admitted: &mut Vec<u64>, number: u64)
    requires { vec_len admitted.old < vec_capacity admitted.old }
    ensures { admitted.new.items ≡ admitted.old.items ++ number ∷ [] }
{
    if let Err(_refused) = admitted.push(number) {}
}

impl AssociationTable {
    /// No associations.
    pub fn new(alloc: Global) -> AssociationTable
        ensures { result ≡ [] }
    {
        AssociationTable {
            associations: Associations {
                items: Vec::new(alloc),
            },
            unclosed: 0,
            live: 0,
            admitted: Vec::new(alloc),
        }
    }

    /// All of them; the first one has the number 1.
    pub fn as_slice(&self) -> &[Association]
        ensures { result.now ≡ self.now }
    {
        self.associations.items.as_slice()
    }

    /// The association under this number.
    pub fn at(&self, number: u64) -> Option<&Association>
        ensures { option_copied result ≡ numbered self.now number }
    {
        at(&self.associations, number)
    }

    /// How many are not closed.
    pub fn count_open(&self) -> u64
        ensures { result ≡ count_open self.now }
    {
        self.unclosed
    }

    /// How many places of the journal are reserved for associations.
    pub fn count_reserved(&self) -> u128
        ensures reserved { result ≡ reserved_by_associations self.now }
        ensures few { result < 2 ^ 65 }
    {
        self.unclosed as u128 + self.live as u128
    }

    /// Whether one that is not closed has this title. Looks at those alone that were admitted and are not closed.
    pub fn has_title(&self, title: &Oid) -> bool
        ensures { result ≡ list_any (has_title title.now) self.now }
    {
        any_has_title(&self.associations, self.admitted.as_slice(), title)
    }

    /// Adds an association that is not closed under the next number.
    pub fn push(&mut self, association: Association) -> Result<(), AllocError>
        requires { is_open association ≡ true }
        ensures { OnOk result (self.new ≡ self.old ++ association ∷ []) }
    {
        let admitted = is_admitted(&association);
        let live = places_of_live(association.state);
        self.admitted.reserve(1)?;
        let number = add_association(&mut self.associations, association)?;
        self.unclosed += 1;
        self.live += live;
        if admitted {
            write_down(&mut self.admitted, number);
        }
        Ok(())
    }

    /// Sets the agent's own next invoke id.
    pub fn set_own(&mut self, number: u64, own: i32)
        requires { (1 ≤ number) × (number ≤ length self.old) }
        ensures { self.new ≡ changed_association self.old number (with_own own) }
    {
        set_own(&mut self.associations, number, own);
    }

    /// Places bytes behind those before.
    pub fn place(&mut self, number: u64, bytes: &[u8]) -> Result<(), AllocError>
        requires { (1 ≤ number) × (number ≤ length self.old) }
        ensures { OnOk result (self.new ≡ changed_association self.old number (with_placed bytes.now)) }
    {
        place(&mut self.associations, number, bytes)?;
        Ok(())
    }

    /// All that was placed counts as taken.
    pub fn take_all(&mut self, number: u64)
        requires { (1 ≤ number) × (number ≤ length self.old) }
        ensures { self.new ≡ changed_association self.old number with_all_taken }
    {
        take_placed(&mut self.associations, number);
    }

    /// No more comes from one that isn't closed.
    pub fn finish(&mut self, number: u64)
        requires within { (1 ≤ number) × (number ≤ length self.old) }
        requires unclosed { (a : Association) → numbered self.old number ≡ Some a → is_open a ≡ true }
        ensures { self.new ≡ changed_association self.old number (with_state AssociationState.Finished) }
    {
        let was_live = places_of_live_at(&self.associations, number);
        set_association_state(&mut self.associations, number, AssociationState::Finished);
        self.live -= was_live;
    }

    /// Closes one, or says anew for what cause it is closed.
    pub fn close(&mut self, number: u64, state: AssociationState)
        requires within { (1 ≤ number) × (number ≤ length self.old) }
        requires closed { is_closed_state state ≡ true }
        ensures { self.new ≡ changed_association self.old number (with_state state) }
    {
        let was_closed = is_closed_at(&self.associations, number);
        let was_live = places_of_live_at(&self.associations, number);
        set_association_state(&mut self.associations, number, state);
        self.live -= was_live;
        if !was_closed {
            self.unclosed -= 1;
            withdraw(&mut self.admitted, number);
        }
    }
}
