//! Which entries may stand next in a journal: docs/PROFILE.md, section 7.
#![tactic(auto)]

pub mod legality;

pub use legality::may_stand_next;
