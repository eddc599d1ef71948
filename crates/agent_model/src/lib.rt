//! The one-manager agent as definitions speak of it: its state, the entries of its journal, its steps, journals and
//! scripts; docs/PROFILE.md, sections 5 and 7.
#![tactic(auto)]

pub mod agent_state;
pub mod entry;
pub mod laws;
pub mod limits;
pub mod script_line;

pub use agent_state::{
    AgentState, Association, AssociationState, Associations, Operation, OperationState, Operations,
    Work,
};
pub use entry::{Entries, Entry, Why};
pub use limits::Limits;
pub use script_line::{ScriptLine, ScriptLines};
