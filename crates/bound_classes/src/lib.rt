//! Which classes the agent acts on as discriminators and as logs, and whether a schema has any class that does more
//! than hold attributes. X.721, X.734, X.735; X.722, section 8.4; docs/PROFILE.md, section 15.
#![tactic(auto)]

pub mod behaviour;
pub mod bound_labels;
pub mod discriminators;

pub use behaviour::has_behaviour;
pub use bound_labels::{has_bound_discriminator, has_bound_log};
pub use discriminators::is_bound_discriminator;
