//! What the arguments of operations are made of: X.711, sections 7.4 and 7.5.
#![tactic(auto)]

pub mod asking;
pub mod asserting;
pub mod heads;
pub mod instances;
pub mod lists;
pub mod names;
pub mod parts;
pub mod rows;
