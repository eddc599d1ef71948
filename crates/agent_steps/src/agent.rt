//! The agent between two entries of its journal: docs/PROFILE.md, section 7.

ghost use Rattle.std.specs.Prelude.{◌≡◌, ◌+◌, ◌^◌, ◌<◌, length};
ghost use Rattle.std.specs.Option.{option_map_or};
ghost use Rattle.agent_model.specs.AgentState.{association_of, is_closed_state, is_live_state, left_to_take};
ghost use Rattle.agent_model.specs.Step.{counted};
ghost use Rattle.agent_model.specs.JournalRoom.{reserved_by_associations};
ghost use Rattle.agent_model.specs.Starting.{started};
ghost use Rattle.agent_steps.specs.Asking.{AreAskable, has_unbuilt};
ghost use Rattle.agent_steps.specs.States.{has_state};

use crate::association_changes::{count_left, is_closed, is_live};
use crate::association_table::AssociationTable;
use crate::requests::has_unbuilt;
use agent_model::{Association, Limits, Operations};
use mo_list::ListMib as Mib;
use object_maps::ObjectMap;
use std::alloc::Global;
use std::marker::Model;
use term_model::{Set, StepLedger};

/// An agent between two entries of its journal. Contracts see it as the state of the definition, with no record that
/// waits for a log. The filter of each of its operations is valid under its records.
#[derive(Drop)]
pub struct Agent<L: StepLedger> {
    /// The records of the documents.
    pub(crate) schema: Set,
    /// How much it holds at the most.
    pub(crate) limits: Limits,
    /// The objects as they are now.
    pub(crate) mib: Mib<L>,
    /// All associations that were opened.
    pub(crate) associations: AssociationTable,
    /// All operations that were queued.
    pub(crate) operations: Operations,
    /// How many entries came so far.
    pub(crate) entries: u64,
}

impl<L: StepLedger> Model for Agent<L> {
    ghost use Rattle.std.specs.Coded.{codes};
    ghost use Rattle.term_values.specs.SyntaxCode.{syntax_code};
    ghost use Rattle.term_values.specs.Typed.{value_code};
    ghost use Rattle.term_model.specs.contracts.filter.Filter as filter;
    ghost use Rattle.agent_model.specs.declared.agent_state.AgentState.{AgentState};
    ghost use Rattle.agent_steps.specs.Asking.{AreAskableUnder};
    ghost use Rattle.agent_steps.specs.States.{agent_of};

    ghost Value = { AgentState };

    ghost coded = { Prim.hlevel (codes, value_code, syntax_code, filter.the_row.coded) };

    ghost view = { λ agent. agent_of agent.schema agent.limits agent.mib agent.associations agent.operations
        agent.entries };

    ghost invariant = { λ agent. AreAskableUnder agent.schema agent.operations };
}

impl<L: StepLedger> Agent<L> {
    /// The agent before any entry, with the objects at the opening.
    pub fn new(alloc: Global, schema: Set, limits: Limits, mib: Mib<L>) -> Agent<L>
        ensures { result ≡ started schema limits mib }
    {
        Agent {
            schema,
            limits,
            mib,
            associations: AssociationTable::new(alloc),
            operations: Operations {
                items: Vec::new(alloc),
            },
            entries: 0,
        }
    }

    /// One entry more came.
    pub(crate) fn count_entry(&mut self)
        requires { self.old.entries + 1 < 2 ^ 64 }
        ensures { self.new ≡ counted self.old }
    {
        self.entries += 1;
    }

    /// The associations; the first one has the number 1.
    pub fn associations(&self) -> &[Association]
        ensures { result.now ≡ self.now.associations }
    {
        self.associations.as_slice()
    }

    /// How many associations were opened.
    pub fn count_associations(&self) -> u64
        ensures { result ≡ length self.now.associations }
    {
        self.associations.as_slice().len() as u64
    }

    /// How many operations were queued.
    pub fn count_operations(&self) -> u64
        ensures { result ≡ length self.now.operations }
    {
        self.operations.items.as_slice().len() as u64
    }

    /// How many objects there are.
    pub fn count_objects(&self) -> u64
        ensures { result ≡ length self.now.objects }
    {
        self.mib.len()
    }

    /// How many entries came so far.
    pub fn count_entries(&self) -> u64
        ensures { result ≡ self.now.entries }
    {
        self.entries
    }

    /// How many places of the journal are reserved for the associations: for each that is open its finish and its close,
    /// for each that is finished its close. Looks at no association.
    pub fn count_reserved(&self) -> u128
        ensures reserved { result ≡ reserved_by_associations self.now.associations }
        ensures few { result < 2 ^ 65 }
    {
        self.associations.count_reserved()
    }

    /// How much it holds at the most.
    pub fn limits(&self) -> Limits
        ensures { result ≡ self.now.limits }
    {
        self.limits
    }

    /// The filter of each operation is valid under the agent's records. Does nothing.
    pub fn has_valid_filters(&self)
        ensures { AreAskable self.now }
    {
        let _count = self.operations.items.as_slice().len();
    }

    /// Whether there is an association under this number, and its manager may send.
    pub fn is_live(&self, number: u64) -> bool
        ensures { result ≡ has_state is_live_state self.now number }
    {
        match self.associations.at(number) {
            Some(association) => is_live(association.state),
            None => false,
        }
    }

    /// Whether there is an association under this number, and it is closed.
    pub fn is_closed(&self, number: u64) -> bool
        ensures { result ≡ has_state is_closed_state self.now number }
    {
        match self.associations.at(number) {
            Some(association) => is_closed(association.state),
            None => false,
        }
    }

    /// How many bytes are left to take of the association under this number; none where there is no such association.
    pub fn count_left(&self, number: u64) -> u64
        ensures { result ≡ option_map_or left_to_take (association_of self.now number) 0 }
    {
        match self.associations.at(number) {
            Some(association) => count_left(association),
            None => 0,
        }
    }

    /// Whether an operation asks for what no operation of the agent does yet: anything but m-Get and m-Set. Looks at
    /// all operations.
    pub fn has_unbuilt(&self) -> bool
        ensures { result ≡ has_unbuilt self.now }
    {
        has_unbuilt(&self.operations)
    }
}
