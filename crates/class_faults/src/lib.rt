//! What can be wrong with classes, and which fault is told (X.722, section 8; docs/PROFILE.md, section 18).
#![tactic(auto)]

pub mod first_fault;
pub mod refusal;

pub use first_fault::{ClassFault, FaultKind, Faults, refusal_of};
pub use refusal::ClassRefusal;
