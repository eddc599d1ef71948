//! The text of a compiled schema: its classes with what they have, its name bindings, and which classes the agent acts
//! on. X.722, section 8; docs/PROFILE.md, section 19.
#![tactic(auto)]

mod class_lists;
mod class_text;
mod labels;
mod lines;
mod list_tables;
mod orders;
mod refusal;
mod reporting;

pub use refusal::ReportRefusal;
pub use reporting::{report, report_text};
