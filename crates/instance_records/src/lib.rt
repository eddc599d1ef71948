//! The instances of sections INSTANCES as records of a schema, and the name of the system (docs/PROFILE.md, section 9).
#![tactic(auto)]

mod instance_parts;
mod object_names;
pub mod object_records;

pub use object_records::instance_records;
