//! The lock table: which operation holds which locks of its path, and which it may take next. docs/PROFILE.md,
//! section 20.
#![tactic(auto)]

pub mod grant;
pub mod lock_table;
mod looking;

pub use grant::Grant;
pub use lock_table::{LockTable, Row};
