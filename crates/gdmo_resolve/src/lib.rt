//! Labels of templates resolved: which template, type or value each reference means, and the first fault where there is
//! one (X.722, section 8; docs/PROFILE.md, section 12).
#![tactic(auto)]

mod known_parts;
pub mod resolving;
mod resolving_names;
mod resolving_types;

pub use gdmo_names::{LabelRefusal, Parsed};
pub use linked_parts::Linked;
pub use resolving::resolve_labels;
