//! Sets of whole numbers as ranges: what of them ranges leave (X.680, sections 49 to 51; docs/PROFILE.md, section 11).
#![tactic(auto)]

mod common;
pub mod laws;
mod leaving;
mod rising;

pub use leaving::{hold_nothing, leave, leave_both};
