//! The records of a schema that linked parts become: classes with their packages, attributes, groups, name bindings,
//! actions and notifications (X.722, section 8).
#![tactic(auto)]

pub mod class_records;
mod identifiers;
pub mod member_records;
mod property_records;
