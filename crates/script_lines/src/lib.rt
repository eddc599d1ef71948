//! The text of a script, read in lines; docs/PROFILE.md, section 5.
#![tactic(auto)]

pub mod laws;
mod line_parts;
mod line_reading;
pub mod script_text;

pub use script_text::{ScriptText, read_script_text};
