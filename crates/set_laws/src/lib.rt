//! Laws of what modifications make of an object: X.711, section 7.4.
#![tactic(auto)]

pub mod laws;
