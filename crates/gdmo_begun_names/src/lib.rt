//! With which first names some identifier or some value begins (X.680, section 32; docs/PROFILE.md, section 12).
#![tactic(auto)]

pub mod begun_names;
pub mod filter_names;
pub mod identifier_names;
pub mod value_names;
