//! Copies of the texts of values (X.680, section 17.7).
#![tactic(auto)]

pub mod value_copies;
