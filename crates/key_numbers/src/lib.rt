//! Numbers of lists and of types: two are one exactly where they have one number (X.680, sections 17 to 51;
//! docs/PROFILE.md, section 12).
#![tactic(auto)]

pub mod key_tables;
pub mod number_lists;
