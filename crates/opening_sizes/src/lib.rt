//! How long the objects at the opening are: docs/PROFILE.md, sections 15 and 16.
#![tactic(auto)]

pub mod laws;
