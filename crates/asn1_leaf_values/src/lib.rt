//! The values that texts denote in the types that hold no others (X.680, sections 18 to 24, 32, 41 and 46; X.208,
//! section 27).
#![tactic(auto)]

pub mod any_values;
pub mod arcs;
pub mod bits;
pub mod leaf_values;
pub mod numbers;
pub mod strings;

pub use arcs::{ArcList, FirstNames, add_first_name};
