//! What of a syntax the types of PERMITTED VALUES leave (X.722, section 8.4; docs/PROFILE.md, section 18).
#![tactic(auto)]

mod forms;
mod permitted;

pub use forms::is_set_valued;
pub use permitted::Permitted;
