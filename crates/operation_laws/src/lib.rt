//! Laws of what whole operations leave: X.711, section 7.
#![tactic(auto)]

pub mod laws;
