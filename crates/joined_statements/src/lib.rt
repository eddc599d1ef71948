//! What packages state of attributes, joined (X.722, section 8.4; docs/PROFILE.md, section 18).
#![tactic(auto)]

pub mod held;
pub mod joined;

pub use held::{AssignedValues, Held};
pub use joined::{Joined, JoinedAttributes, Joining, join_many, join_one};
