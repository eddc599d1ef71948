//! What the commands `check` and `report` print of a set of documents, or why they don't (X.722; docs/PROFILE.md,
//! sections 2, 16 and 19).
#![tactic(auto)]

mod commands;
mod count_lines;
pub mod refusal;

pub use commands::{check_text, judge, schema_text};
pub use refusal::SetRefusal;
pub use template_compile::{Doc, Kind};
