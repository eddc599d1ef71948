//! Plays scripts on the agent with one manager: docs/PROFILE.md, sections 5 and 7.
#![tactic(auto)]

mod entering;
pub mod laws;
mod line_playing;
pub mod playing;
mod watching;

pub use playing::{Ending, Play, play_script};
