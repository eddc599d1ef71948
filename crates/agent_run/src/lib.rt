//! The agent as a command: its words, its files, and the one-manager agent that it runs. X.711, X.720 and X.229.
#![tactic(auto)]

mod file_reading;
mod playing;
pub mod refusal;
mod running;
mod words;

pub use running::agent;
pub use words::{command_words, words_behind_name};
