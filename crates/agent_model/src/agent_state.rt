//! The state of the one-manager agent: one thread, one entry after the other.

use crate::entry::Why;
use crate::limits::Limits;
use std::marker::Model;
use term_model::{Name, Objects, Request, Set, WaitingRecords};
use term_values::{Bytes, Oid};

/// How far an association has come.
#[derive(Clone, Copy, Debug, PartialEq, Eq)]
pub enum AssociationState {
    /// Its manager may send.
    Live,
    /// No more comes from it.
    Finished,
    /// It is closed, for this cause.
    Closed(Why),
    /// It is closed, as too many bytes waited to be taken.
    Overrun,
}

/// An association with a manager.
#[derive(Drop)]
pub struct Association {
    /// The manager's title where it was admitted.
    pub title: Option<Oid>,
    /// How far it has come.
    pub state: AssociationState,
    /// The invoke id of the agent's own next invoke, from 1 to 2,147,483,647.
    pub next_own: i32,
    /// All bytes that were placed for it.
    pub placed: Bytes,
    /// How many of these were taken to be sent.
    pub taken: u64,
}

/// The associations by number, the first of which is 1.
#[derive(Drop)]
pub struct Associations {
    /// The first one has the number 1.
    pub items: Vec<Association>,
}

impl Model for Associations {
    ghost use Rattle.std.specs.Prelude.{List};
    ghost use Rattle.agent_model.specs.declared.agent_state.Association.{Association};

    ghost Value = { List Association };

    ghost view = { λ list. list.items.items };
}

/// How far an operation has come.
#[derive(Clone, Copy, Debug, PartialEq, Eq)]
pub enum OperationState {
    /// It has not all its locks yet.
    Waiting,
    /// It has all its locks since this time, in seconds since 1970.
    Granted(u64),
    /// The entry at this place of the journal, counted from 0, ended it.
    Ended(u64),
}

/// What an operation does.
#[derive(Drop)]
pub enum Work {
    /// What a manager asked for.
    Asked {
        /// The number of the association that asked for it.
        association: u64,
        /// The invoke id of its APDU.
        invoke: i32,
        /// What was asked for.
        request: Request,
    },
    /// A record is appended to a log.
    Append {
        /// The name of the log.
        log: Name,
        /// The number of the waiting record that is its own, where it is granted and found one.
        own: Option<u64>,
    },
}

/// An operation.
#[derive(Drop)]
pub struct Operation {
    /// What it does.
    pub work: Work,
    /// How far it has come.
    pub state: OperationState,
}

/// The operations by number, the first of which is 1.
#[derive(Drop)]
pub struct Operations {
    /// The first one has the number 1.
    pub items: Vec<Operation>,
}

impl Model for Operations {
    ghost use Rattle.std.specs.Prelude.{List};
    ghost use Rattle.std.specs.Coded.{codes};
    ghost use Rattle.term_values.specs.Typed.{value_code};
    ghost use Rattle.term_model.specs.contracts.filter.Filter as filter;
    ghost use Rattle.agent_model.specs.declared.agent_state.Operation.{Operation};

    ghost Value = { List Operation };

    ghost coded = { Prim.hlevel (codes, value_code, filter.the_row.coded) };

    ghost view = { λ list. list.items.items };
}

/// The agent between two entries.
#[derive(Drop)]
pub struct AgentState {
    /// The records of the documents.
    pub schema: Set,
    /// How much it holds at the most.
    pub limits: Limits,
    /// The objects as they are now.
    pub objects: Objects,
    /// All associations that were opened.
    pub associations: Associations,
    /// All operations that were queued or begun.
    pub operations: Operations,
    /// The records that wait to be appended to logs.
    pub waiting: WaitingRecords,
    /// How many entries came so far.
    pub entries: u64,
}
