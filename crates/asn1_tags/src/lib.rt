//! Which assigned types contain themselves, how many nodes types have, and whether tags tell members apart (X.680;
//! docs/PROFILE.md, section 11).
#![tactic(auto)]

pub mod fact_finding;
pub mod node_counting;
pub mod tag_clashes;
pub mod tag_runs;
pub mod tag_sets;
pub mod type_facts;
