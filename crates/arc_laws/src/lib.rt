//! Laws of the arcs of identifiers that were read: docs/PROFILE.md, sections 1 and 12.
#![tactic(auto)]

pub mod laws;
