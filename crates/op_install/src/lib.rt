//! Requests carried out on the map of objects: X.711, section 7.
#![tactic(auto)]

pub mod installing;
pub mod laws;
pub mod performing;

pub use performing::perform_request;
