//! Classes closed: inheritance, and the properties of attributes joined (X.722, sections 5.2 and 8.4; docs/PROFILE.md,
//! section 18).
#![tactic(auto)]

pub mod closing;

pub use class_faults::ClassRefusal;
pub use closing::{Classes, close_classes};
