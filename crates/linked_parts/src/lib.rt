//! What documents say once each reference is replaced by its target (X.722, section 8; docs/PROFILE.md, section 12).
#![tactic(auto)]

pub mod linked;

pub use linked::Linked;
