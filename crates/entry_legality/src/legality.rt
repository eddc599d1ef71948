//! Whether an entry may stand next in the journal: docs/PROFILE.md, section 7.

ghost use Rattle.std.specs.Prelude.{◌≡◌, ◌==◌, ◌+◌, ◌&&◌, count_by, false, is_some, length, nat_le, nat_lt, not};
ghost use Rattle.std.specs.List.{list_any};
ghost use Rattle.std.specs.Option.{option_map, option_map_or};
ghost use Rattle.std.specs.Ordering.{is_lt};
ghost use Rattle.term_model.specs.NameOrder.{name_cmp};
ghost use Rattle.agent_model.specs.AgentState.{association_of, is_closed_state, is_finished_state, is_live_state};
ghost use Rattle.agent_model.specs.AgentState.{granted_moment, is_ended_state, is_waiting_state, operation_of};
ghost use Rattle.agent_model.specs.AgentState.{is_outstanding, left_to_take, outstanding};
ghost use Rattle.agent_model.specs.Step.{has_more, is_append_to, is_due, is_due_before, is_legal, may_close, may_take, waits_for};

use agent_model::{
    AgentState, Association, AssociationState, Entry, Operation, OperationState, Why, Work,
};
use std::cmp::Ordering;
use term_model::{Name, WaitingRecord};

/// The most operations of an association that have not ended.
const MOST_OUTSTANDING: u64 = 64;

/// The greatest moment of a journal, the last second of the year 9998.
const LAST_MOMENT: u64 = 253_370_764_799;

/// The least number of bytes that are taken where more are left.
const LEAST_TAKEN: u64 = 65_536;

/// The association under a number, which counts from 1.
fn association_at(agent: &AgentState, number: u64) -> Option<&Association>
    ensures { option_map (λ association. association.now) result ≡ association_of agent.now number }
{
    if number == 0 || number > agent.associations.items.len() as u64 {
        return None;
    }
    Some(&agent.associations.items[(number - 1) as usize])
}

/// The operation under a number, which counts from 1.
fn operation_at(agent: &AgentState, number: u64) -> Option<&Operation>
    ensures { option_map (λ operation. operation.now) result ≡ operation_of agent.now number }
{
    if number == 0 || number > agent.operations.items.len() as u64 {
        return None;
    }
    Some(&agent.operations.items[(number - 1) as usize])
}

/// Whether the association under a number asked for the operation, and it has not ended.
fn is_left(operation: &Operation, number: u64) -> bool
    ensures { result ≡ is_outstanding number operation.now }
{
    let asked = match &operation.work {
        Work::Asked { association, .. } => *association == number,
        Work::Append { .. } => false,
    };
    asked && !matches!(operation.state, OperationState::Ended(_))
}

/// How many operations of an association have not ended.
fn count_outstanding(agent: &AgentState, number: u64) -> u64
    ensures { result ≡ outstanding agent.now number }
{
    let mut count = 0;
    for operation in &agent.operations.items {
        if is_left(operation, number) {
            count += 1;
        }
    }
    count
}

/// How many bytes of an association are placed and not taken; none of a closed one.
fn count_left(association: &Association) -> u64
    ensures { result ≡ left_to_take association.now }
{
    match association.state {
        AssociationState::Closed(_) | AssociationState::Overrun => 0,
        AssociationState::Live | AssociationState::Finished => {
            (association.placed.items.len() as u64).saturating_sub(association.taken)
        }
    }
}

/// Whether so many bytes may be taken of those that are left: all of them, or a part that is not small.
fn is_takeable(count: u64, left: u64) -> bool
    ensures { result ≡ may_take count left }
{
    count == left && count >= 1 || count >= LEAST_TAKEN && count < left
}

/// Whether the association may be closed: at its end where nothing is outstanding and nothing left to take, for
/// another cause where it is not closed yet.
fn is_closable(agent: &AgentState, number: u64, cause: Why, association: &Association) -> bool
    ensures { result ≡ may_close agent.now number cause association.now }
{
    match cause {
        Why::End => {
            matches!(association.state, AssociationState::Finished)
                && count_outstanding(agent, number) == 0
                && count_left(association) == 0
        }
        _ => matches!(
            association.state,
            AssociationState::Live | AssociationState::Finished
        ),
    }
}

/// Whether an APDU of the association under this number may arrive.
fn may_arrive(agent: &AgentState, number: u64) -> bool
    ensures { result ≡ option_map_or (λ a. is_live_state a.state && nat_lt (outstanding agent.now number) 64)
        (association_of agent.now number) false }
{
    match association_at(agent, number) {
        None => false,
        Some(association) => {
            matches!(association.state, AssociationState::Live)
                && count_outstanding(agent, number) < MOST_OUTSTANDING
        }
    }
}

/// Whether the operation under this number may have all its locks at this moment.
fn may_grant(agent: &AgentState, number: u64, moment: u64) -> bool
    ensures { result ≡ option_map_or (λ o. is_waiting_state o.state && nat_le moment 253370764799)
        (operation_of agent.now number) false }
{
    match operation_at(agent, number) {
        None => false,
        Some(operation) => {
            matches!(operation.state, OperationState::Waiting) && moment <= LAST_MOMENT
        }
    }
}

/// Whether the operation under this number may be performed.
fn may_commit(agent: &AgentState, number: u64) -> bool
    ensures { result ≡ option_map_or (λ o. is_some (granted_moment o.state)) (operation_of agent.now number) false }
{
    match operation_at(agent, number) {
        None => false,
        Some(operation) => matches!(operation.state, OperationState::Granted(_)),
    }
}

/// Whether the operation under this number may end for want of memory.
fn may_starve(agent: &AgentState, number: u64) -> bool
    ensures { result ≡ option_map_or (λ o. not (is_ended_state o.state)) (operation_of agent.now number) false }
{
    match operation_at(agent, number) {
        None => false,
        Some(operation) => !matches!(operation.state, OperationState::Ended(_)),
    }
}

/// Whether the operation appends to the log with this name, and has not ended.
fn is_append_left(operation: &Operation, log: &Name) -> bool
    ensures { result ≡ is_append_to log.now operation.now }
{
    let appends = match &operation.work {
        Work::Asked { .. } => false,
        Work::Append { log: other, .. } => log == other,
    };
    appends && !matches!(operation.state, OperationState::Ended(_))
}

/// How many appends to the log with this name have begun and not ended.
fn count_appends(agent: &AgentState, log: &Name) -> u64
    ensures { result ≡ count_by (is_append_to log.now) agent.now.operations }
{
    let mut count = 0;
    for operation in &agent.operations.items {
        if is_append_left(operation, log) {
            count += 1;
        }
    }
    count
}

/// How many records wait for the log with this name.
fn count_waiting(agent: &AgentState, log: &Name) -> u64
    ensures { result ≡ count_by (waits_for log.now) agent.now.waiting }
{
    let mut count = 0;
    for waiting in &agent.waiting.items {
        if log == &waiting.log {
            count += 1;
        }
    }
    count
}

/// Whether more records wait for the log with this name than appends to it have begun and not ended.
fn has_more(agent: &AgentState, log: &Name) -> bool
    ensures { result ≡ has_more agent.now log.now }
{
    count_appends(agent, log) < count_waiting(agent, log)
}

/// Whether a name is less than another.
fn is_less(name: &Name, other: &Name) -> bool
    ensures { result ≡ is_lt (name_cmp name.now other.now) }
{
    matches!(name.cmp(other), Ordering::Less)
}

/// Whether more records wait for the log of a waiting record, and its name is less than this one.
#[tactic(auto, unfolding(agent_model::specs::Step::is_due_before))]
fn is_due_before(agent: &AgentState, log: &Name, waiting: &WaitingRecord) -> bool
    ensures { result ≡ is_due_before agent.now log.now waiting.now }
{
    is_less(&waiting.log, log) && has_more(agent, &waiting.log)
}

/// Whether for a log with a lesser name more records wait than appends to it have begun and not ended.
fn is_another_due(agent: &AgentState, log: &Name) -> bool
    ensures { result ≡ list_any (is_due_before agent.now log.now) agent.now.waiting }
{
    for waiting in &agent.waiting.items {
        if is_due_before(agent, log, waiting) {
            return true;
        }
    }
    false
}

/// Whether an append to the log with this name may begin under this number: more records wait for it, and for no log
/// with a lesser name. It goes over the operations once for each record that waits.
#[tactic(auto, unfolding(agent_model::specs::Step::is_due))]
fn may_begin(agent: &AgentState, number: u64, log: &Name) -> bool
    ensures { result ≡ (number == length agent.now.operations + 1 && is_due agent.now log.now) }
{
    let operations = agent.operations.items.len() as u64;
    number == operations + 1 && has_more(agent, log) && !is_another_due(agent, log)
}

/// Whether so many bytes may be taken of the association under this number.
fn may_take_of(agent: &AgentState, number: u64, count: u64) -> bool
    ensures { result ≡ option_map_or (λ a. may_take count (left_to_take a)) (association_of agent.now number) false }
{
    match association_at(agent, number) {
        None => false,
        Some(association) => is_takeable(count, count_left(association)),
    }
}

/// Whether it may be told that no more comes from the association under this number.
fn may_finish(agent: &AgentState, number: u64) -> bool
    ensures { result ≡ option_map_or (λ a. is_live_state a.state) (association_of agent.now number) false }
{
    match association_at(agent, number) {
        None => false,
        Some(association) => matches!(association.state, AssociationState::Live),
    }
}

/// Whether the association under this number may be closed for this cause.
fn may_close_at(agent: &AgentState, number: u64, cause: Why) -> bool
    ensures { result ≡ option_map_or (may_close agent.now number cause) (association_of agent.now number) false }
{
    match association_at(agent, number) {
        None => false,
        Some(association) => is_closable(agent, number, cause, association),
    }
}

/// Whether the entry may stand next in the journal of this agent, which is only read: the condition `legal` of the
/// agent's steps can be tested by it. It takes no memory, and goes over the operations once at the most, for an append
/// that begins once for each record that waits. Source: docs/PROFILE.md, section 7.
pub fn may_stand_next(agent: &AgentState, entry: &Entry) -> bool
    ensures { result ≡ is_legal agent.now entry.now }
{
    match entry {
        Entry::Opened(number, _) => {
            let associations = agent.associations.items.len() as u64;
            *number == associations + 1
        }
        Entry::Arrived(number, _) => may_arrive(agent, *number),
        Entry::Begun(number, log) => may_begin(agent, *number, log),
        Entry::Granted(number, moment) => may_grant(agent, *number, *moment),
        Entry::Committed(number) => may_commit(agent, *number),
        Entry::Starved(number) => may_starve(agent, *number),
        Entry::Taken(number, count) => may_take_of(agent, *number, *count),
        Entry::Finished(number) => may_finish(agent, *number),
        Entry::Closed(number, cause) => may_close_at(agent, *number, *cause),
    }
}
