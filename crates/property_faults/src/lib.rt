//! What is wrong with the joined properties of classes: unequal defaults, and attributes of which no value is permitted
//! (X.722, section 8.4; docs/PROFILE.md, section 18).
#![tactic(auto)]

mod property_faults;

pub use property_faults::note_classes;
