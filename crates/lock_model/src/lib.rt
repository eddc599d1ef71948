//! Hierarchical locks on names, and the laws that make a plan right that was made on a snapshot: docs/PROFILE.md,
//! section 20. In code it has the types of locks and paths alone.
#![tactic(auto)]

pub mod laws;
pub mod lock_name;
pub mod path;

pub use lock_name::{LockName, Mode, Part};
pub use path::{Path, Wanted};
