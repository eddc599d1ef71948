//! Packages with the targets of their references, where no reference is missing (X.722, section 8.4; docs/PROFILE.md,
//! section 12).
#![tactic(auto)]

pub mod linking_packages;
pub mod property_words;

pub use linking_packages::linked_package;
