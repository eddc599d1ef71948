//! What the creation of an object does: X.711, section 7.4, m-Create; X.720, section 5.
#![tactic(auto)]

pub mod asking;
pub(crate) mod attempts;
pub(crate) mod copies;
pub mod create_effect;
pub(crate) mod created_values;
pub mod creating;
pub(crate) mod last_parts;
pub(crate) mod licensing;
pub(crate) mod making;
pub(crate) mod outlines;
pub(crate) mod references;

pub use asking::Asking;
pub use create_effect::create_one;
pub use creating::{create_named, create_root};
