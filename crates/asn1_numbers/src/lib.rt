//! Which numbers and bases the types of ASN.1 modules have, and which types contain themselves (X.680; docs/PROFILE.md,
//! section 11).
#![tactic(auto)]

mod bases;
pub mod containment;
pub mod number_tables;
mod values;
