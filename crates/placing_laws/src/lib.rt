//! Laws of where the tokens of what was read stand: docs/PROFILE.md, sections 1 and 2.
#![tactic(auto)]

pub mod laws;
