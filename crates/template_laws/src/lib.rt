//! Laws of templates: docs/PROFILE.md, section 2.
#![tactic(auto)]

pub mod laws;
