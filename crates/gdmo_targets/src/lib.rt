//! What labels mean, and which templates the references of templates, rules and instances mean (X.722, section 8;
//! docs/PROFILE.md, section 12).
#![tactic(auto)]

pub mod fixed_groups;
pub mod labels;
pub mod section_references;
pub mod stated_rules;
