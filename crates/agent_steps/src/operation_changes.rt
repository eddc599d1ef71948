//! Changes of the operations of an agent: docs/PROFILE.md, section 7.

ghost use Rattle.std.specs.Prelude.{◌≡◌, ◌≤◌, length, map};
ghost use Rattle.agent_model.specs.AgentState.{is_ended_state, is_outstanding};
ghost use Rattle.agent_model.specs.Step.{changed_operation, ended_with};

use agent_model::{Operation, OperationState, Operations, Work};

/// Sets the state of the operation under this number.
pub fn set_operation_state(operations: &mut Operations, number: u64, state: OperationState)
    requires { (1 ≤ number) × (number ≤ length operations.old) }
    ensures { operations.new ≡ changed_operation operations.old number state }
{
    let operation = &mut operations.items[(number - 1) as usize];
    operation.state = state;
}

/// Whether an operation has ended.
fn is_ended(state: OperationState) -> bool
    ensures { result ≡ is_ended_state state }
{
    match state {
        OperationState::Ended(_) => true,
        OperationState::Waiting | OperationState::Granted(_) => false,
    }
}

/// Whether the association under this number asked for the operation, and it has not ended.
fn is_outstanding(operation: &Operation, number: u64) -> bool
    ensures { result ≡ is_outstanding number operation.now }
{
    match &operation.work {
        Work::Asked { association, .. } => { *association == number && !is_ended(operation.state) }
        Work::Append { .. } => false,
    }
}

/// Ends the operation with the entry at this place, where the association under this number asked for it and it has not
/// ended.
fn end_outstanding(operation: &mut Operation, number: u64, place: u64)
    ensures { operation.new ≡ ended_with number place operation.old }
{
    if is_outstanding(operation, number) {
        operation.state = OperationState::Ended(place);
    }
}

/// Ends those of these operations that the association under this number asked for and that have not ended, with the
/// entry at this place.
fn end_each(operations: &mut [Operation], number: u64, place: u64)
    ensures { operations.new ≡ map (ended_with number place) operations.old }
{
    for operation in operations.iter_mut() {
        end_outstanding(operation, number, place);
    }
}

/// Ends all operations of the association under this number that have not ended, with the entry at this place.
pub fn end_all_outstanding(operations: &mut Operations, number: u64, place: u64)
    ensures { operations.new ≡ map (ended_with number place) operations.old }
{
    end_each(operations.items.as_mut_slice(), number, place);
}
