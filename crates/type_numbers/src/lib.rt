//! Types of modules by numbers: two types are one exactly where they have one number (X.680, sections 17 to 51;
//! docs/PROFILE.md, section 12).
#![tactic(auto)]

pub mod laws;
pub mod numbered_types;
mod syntax_numbers;
pub mod type_texts;
