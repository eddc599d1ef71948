//! The rules of a schema, and the values of instances: what the sections of documents say, evaluated (docs/PROFILE.md,
//! sections 9 and 18).
#![tactic(auto)]

pub mod instances;
pub mod rules;
mod texts;

pub use instances::InstanceValues;
