//! What an operation does to one object: X.711 and X.720. So far the Get.
#![tactic(auto)]

pub(crate) mod asked_ids;
pub(crate) mod group_uses;
pub(crate) mod held_values;
pub(crate) mod id_sets;
pub mod object_get;
pub mod object_reading;
pub mod property_lists;

pub use object_get::get_one;
