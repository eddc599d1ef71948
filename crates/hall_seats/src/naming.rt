//! The name that the shared state and its passes have in common.

ghost use Rattle.atomic_table.specs.Seated.{TableId};
ghost use Rattle.agent_model.specs.declared.agent_state.AgentState.{AgentState};

use std::marker::Brand;
use std::sync::ledger::Ledger;

/// Names one shared state. Each type that has to be of the same shared state is generic in it, so that what is behind a
/// lock is known by its type to be what a pass is of.
pub trait Naming: Ledger {
    ghost use Rattle.atomic_table.specs.Seated.{TableId};
    ghost use Rattle.agent_model.specs.declared.agent_state.AgentState.{AgentState};

    /// The table whose word counts the journal.
    ghost table: { TableId };

    /// The agent before the first entry of the journal.
    ghost start: { AgentState };
}

impl Naming for Brand {
    ghost use Rattle.hall_seats.specs.Namings.{no_start, no_table};

    ghost table = { no_table };

    ghost start = { no_start };
}
