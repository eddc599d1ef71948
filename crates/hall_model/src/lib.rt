//! Laws of locks along the agent's journal: docs/PROFILE.md, sections 7 and 20.
#![tactic(auto)]

pub mod laws;
