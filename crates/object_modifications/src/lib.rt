//! What a Set does to one object: X.711, section 7.4.
#![tactic(auto)]

pub(crate) mod held_values;
pub(crate) mod id_sets;
pub(crate) mod knowing;
pub(crate) mod log_status;
pub(crate) mod modified_values;
pub(crate) mod modifying;
pub mod object_set;
pub(crate) mod seen_once;
pub(crate) mod settling;
pub(crate) mod weighing;

pub use object_set::set_one;
