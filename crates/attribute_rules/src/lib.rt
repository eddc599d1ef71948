//! What the records of a schema say of an attribute: its label, its syntax, its properties in a class, whether a value
//! is permitted, and what it adds to an object's size. X.722, sections 8.4 and 8.7; docs/PROFILE.md.
#![tactic(auto)]

pub mod attribute_octets;
pub mod bound_logs;
pub mod control_syntaxes;
pub mod labels;
pub mod lookups;
pub mod permitted;
pub mod places;
pub mod property_places;
pub mod sizes;

pub use bound_logs::is_bound_log;
pub use permitted::is_permitted;
pub use sizes::is_small;
