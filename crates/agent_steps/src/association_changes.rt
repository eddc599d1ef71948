//! Changes of one of the associations of an agent: docs/PROFILE.md, section 7.

ghost use Rattle.std.specs.Prelude.{◌≡◌, ◌+◌, ◌≤◌, ◌++◌, ◌∷◌, [], length, IfOk, OnErr, OnOk, Some};
ghost use Rattle.std.specs.Prelude.{if◌then◌else◌};
ghost use Rattle.agent_model.specs.declared.agent_state.Association.{Association};
ghost use Rattle.agent_model.specs.AgentState.{is_closed_state, is_live_state, left_to_take, numbered};
ghost use Rattle.agent_model.specs.Step.{changed_association, with_placed, with_state};
ghost use Rattle.agent_model.specs.Performing.{with_own};
ghost use Rattle.agent_steps.specs.Admitting.{with_all_taken};

use agent_model::{Association, AssociationState, Associations};
use std::alloc::AllocError;

/// Whether a manager may send.
pub fn is_live(state: AssociationState) -> bool
    ensures { result ≡ is_live_state state }
{
    match state {
        AssociationState::Live => true,
        AssociationState::Finished | AssociationState::Closed(_) | AssociationState::Overrun =>
            false,
    }
}

/// Whether an association is closed.
pub fn is_closed(state: AssociationState) -> bool
    ensures { result ≡ is_closed_state state }
{
    match state {
        AssociationState::Live | AssociationState::Finished => false,
        AssociationState::Closed(_) | AssociationState::Overrun => true,
    }
}

/// How many places of the journal are reserved for an association because its manager may send: for its finish.
pub fn places_of_live(state: AssociationState) -> u64
    ensures { result ≡ (if is_live_state state then 1 else 0) }
{
    is_live(state) as u64
}

/// How many bytes of an association are placed and not taken; none of a closed one.
pub fn count_left(association: &Association) -> u64
    ensures { result ≡ left_to_take association.now }
{
    if is_closed(association.state) {
        return 0;
    }
    (association.placed.items.len() as u64).saturating_sub(association.taken)
}

/// Whether the association under this number is closed.
pub fn is_closed_at(associations: &Associations, number: u64) -> bool
    requires { (1 ≤ number) × (number ≤ length associations.now) }
    ensures { (a : Association) → numbered associations.now number ≡ Some a → result ≡ is_closed_state a.state }
{
    is_closed(associations.items[(number - 1) as usize].state)
}

/// How many places of the journal are reserved for the finish of the association under this number.
pub fn places_of_live_at(associations: &Associations, number: u64) -> u64
    requires { (1 ≤ number) × (number ≤ length associations.now) }
    ensures { (a : Association) → numbered associations.now number ≡ Some a
        → result ≡ (if is_live_state a.state then 1 else 0) }
{
    places_of_live(associations.items[(number - 1) as usize].state)
}

/// Adds an association, and answers its number.
pub fn add_association(
    associations: &mut Associations,
    association: Association,
) -> Result<u64, AllocError>
    ensures added { OnOk result (associations.new ≡ associations.old ++ association ∷ []) }
    ensures number { IfOk result (λ number. number ≡ length associations.old + 1) }
    ensures kept { OnErr result (associations.new ≡ associations.old) }
{
    associations.items.push(association)?;
    Ok(associations.items.as_slice().len() as u64)
}

/// Sets the agent's own next invoke id of the association under this number.
pub fn set_own(associations: &mut Associations, number: u64, own: i32)
    requires { (1 ≤ number) × (number ≤ length associations.old) }
    ensures { associations.new ≡ changed_association associations.old number (with_own own) }
{
    let association = &mut associations.items[(number - 1) as usize];
    association.next_own = own;
}

/// Places bytes for the association under this number, behind those before.
pub fn place(associations: &mut Associations, number: u64, bytes: &[u8]) -> Result<(), AllocError>
    requires { (1 ≤ number) × (number ≤ length associations.old) }
    ensures placed { OnOk result (associations.new
        ≡ changed_association associations.old number (with_placed bytes.now)) }
    ensures kept { OnErr result (associations.new ≡ associations.old) }
{
    let association = &mut associations.items[(number - 1) as usize];
    association.placed.items.extend_from_slice(bytes)?;
    Ok(())
}

/// All that was placed for the association under this number counts as taken.
pub fn take_placed(associations: &mut Associations, number: u64)
    requires { (1 ≤ number) × (number ≤ length associations.old) }
    ensures { associations.new ≡ changed_association associations.old number with_all_taken }
{
    let association = &mut associations.items[(number - 1) as usize];
    association.taken = association.placed.items.len() as u64;
}

/// Sets the state of the association under this number.
pub fn set_association_state(associations: &mut Associations, number: u64, state: AssociationState)
    requires { (1 ≤ number) × (number ≤ length associations.old) }
    ensures { associations.new ≡ changed_association associations.old number (with_state state) }
{
    let association = &mut associations.items[(number - 1) as usize];
    association.state = state;
}
