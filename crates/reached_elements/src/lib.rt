//! Which elements of a graph are reached from some of them, and graphs that are made link by link.
#![tactic(auto)]

pub mod linking;
pub mod marks;
pub mod reaching;
