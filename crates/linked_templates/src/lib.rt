//! Templates with the targets of their references, where no reference is missing (X.722, section 8; docs/PROFILE.md,
//! section 12).
#![tactic(auto)]

pub mod linking_classes;
pub mod linking_members;
pub mod linking_templates;

pub use linking_templates::link_templates;
