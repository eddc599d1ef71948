//! The words of a command line, as places (docs/OPERATING.md, Commands).
#![tactic(auto)]

mod forms;
mod numbers;

pub use forms::{Command, read_words};
