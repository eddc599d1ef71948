//! Properties of attributes joined over packages and classes (X.722, sections 5.2 and 8.4; docs/PROFILE.md,
//! section 18).
#![tactic(auto)]

mod comparing;
pub mod cyclic_classes;
pub mod inheriting;
pub mod statement;

pub use inheriting::Inheriting;
pub use statement::Statement;
