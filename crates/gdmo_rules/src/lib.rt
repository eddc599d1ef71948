//! What the steps of rules may not say (X.722, sections 8.3 and 8.4; docs/PROFILE.md, sections 9 and 12).
#![tactic(auto)]

pub mod judging;
pub mod rule_faults;
mod rule_texts;
mod step_names;
mod step_types;
pub mod type_faults;
