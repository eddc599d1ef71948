//! What a map of the agent's objects is, whichever way it holds them: docs/PROFILE.md, section 4.
#![tactic(auto)]

mod object_map;

pub use object_map::{Back, ObjectMap};
