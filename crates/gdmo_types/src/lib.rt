//! Of which type each attribute is, when two types are one, and fields of notifications (X.722, sections 8.7 and 8.11;
//! docs/PROFILE.md, section 12).
#![tactic(auto)]

pub mod attribute_types;
pub mod compared_types;
pub mod linkage;
pub mod module_names;
pub mod notification_fields;
pub mod role_targets;
