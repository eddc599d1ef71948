//! Rules and instances with the targets of their references, where no reference is missing (docs/PROFILE.md, sections 9
//! and 12).
#![tactic(auto)]

pub mod linking_instances;
pub mod linking_rules;
pub mod linking_steps;

pub use linking_instances::linked_instances;
pub use linking_rules::linked_rules;
