//! Laws of typed values: X.690, sections 8 to 11.
#![tactic(auto)]

pub mod laws;
