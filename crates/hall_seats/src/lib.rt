//! Tokens that have seen a beginning of the agent's journal and have rights to extend it, and the owner of the
//! journal's length; README.md.
#![tactic(auto)]

pub mod naming;
pub mod pass;
pub mod right;
pub mod roll;
pub mod rule;
pub mod unnamed_roll;

pub use naming::Naming;
pub use pass::Pass;
pub use right::Right;
pub use roll::Roll;
pub use unnamed_roll::UnnamedRoll;
