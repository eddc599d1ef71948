//! Which classes stand above a class, and which packages and attributes the objects of a class have by what their
//! creation chose: X.720, section 5; X.722, sections 5.2 and 8.3.
#![tactic(auto)]

pub mod attribute_ids;
pub mod superclasses;

pub use attribute_ids::attributes_of;
pub use superclasses::{classes_above, is_among, is_chosen};
