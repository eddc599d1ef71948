//! The objects of a system as a sorted list: the slow form of the map from names to objects.
#![tactic(auto)]

mod changes;
mod list_mib;
mod places;

pub use list_mib::ListMib;
