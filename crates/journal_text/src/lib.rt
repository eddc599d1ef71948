//! The texts of a journal and of what it comes to, and how long the lines of a journal are.
#![tactic(auto)]

pub mod lengths;
pub mod log_names;
pub mod texts;
