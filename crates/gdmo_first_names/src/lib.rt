//! Which first names modules define (X.660, annex A; X.680, section 32; docs/PROFILE.md, section 12).
#![tactic(auto)]

pub mod assigned_names;
mod identifier_types;
pub mod roots;
