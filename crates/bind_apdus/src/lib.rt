//! A manager's BIND is read, and its answer written: docs/PROFILE.md, section 4.
#![tactic(auto)]

pub mod bind_reading;
pub mod bind_writing;
pub mod laws;
