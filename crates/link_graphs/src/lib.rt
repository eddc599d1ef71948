//! Lists of which each element may lead to others: which lead back to themselves, an order in which each stands behind
//! its targets, and where chains end.
#![tactic(auto)]

pub mod chains;
pub mod cycles;
pub mod graph;
mod marking;
mod walking;

pub use chains::{Link, chain_ends};
pub use cycles::{Cycles, find_cycles};
pub use graph::Graph;
