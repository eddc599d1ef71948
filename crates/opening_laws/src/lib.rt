//! What holds of the objects at the opening, and of the names and records of a schema: docs/PROFILE.md, section 16.
//! Each law is the contract of a function that does nothing.
#![tactic(auto)]

pub mod laws;
