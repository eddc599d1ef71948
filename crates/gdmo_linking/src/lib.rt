//! By which numbers the targets of references are told, and what linked parts tell of names, where no reference is
//! missing (X.722, section 8; docs/PROFILE.md, section 12).
#![tactic(auto)]

pub mod linking;
