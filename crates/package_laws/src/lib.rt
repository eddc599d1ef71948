//! Laws of the packages of objects: X.722, sections 5.2 and 8.3.
#![tactic(auto)]

pub mod laws;
