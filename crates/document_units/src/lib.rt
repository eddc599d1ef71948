//! Documents as rows of units: templates, modules, and the sections RULES and INSTANCES (X.722, section 8.2;
//! docs/PROFILE.md, section 2).
#![tactic(auto)]

pub mod reading;
pub mod unit;

pub use reading::read_units;
pub use unit::{DocumentUnit, read_unit};
