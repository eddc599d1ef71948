//! Laws of the grammars of documents: docs/PROFILE.md, section 2.
#![tactic(auto)]

pub mod laws;
