//! The steps of the agent with one manager, one function for each kind of entry of its journal.
#![tactic(auto)]

pub mod agent;
mod association_changes;
mod association_table;
mod operation_changes;
mod performing;
mod placing;
mod receiving;
mod requests;
mod steps;

pub use agent::Agent;
