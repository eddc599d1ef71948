//! With which first names the values begin that modules assign, that stand behind DEFAULT, and that rules and instances
//! state (X.680, section 32; docs/PROFILE.md, section 12).
#![tactic(auto)]

mod default_values;
pub mod laws;
mod meant_values;
pub mod module_values;
mod resolved_modules;
mod section_meanings;
mod stated_values;
mod values_of_instances;
mod values_of_rules;
pub mod values_of_sections;
