//! Whole operations: what a request does to the objects that its scope and its filter select. X.711, section 7.
#![tactic(auto)]

pub mod acting;
pub mod checks;
pub mod filters;
pub mod linking;
pub mod outcome;
pub mod planning;
pub mod selecting;

pub use outcome::{Plan, Replies};
pub use planning::plan_request;
