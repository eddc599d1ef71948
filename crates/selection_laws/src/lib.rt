//! The law of what operations select: X.711, section 7.5.
#![tactic(auto)]

pub mod laws;
