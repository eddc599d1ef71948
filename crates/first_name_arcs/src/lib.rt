//! The arcs for which first names stand: first names to which modules give unequal arcs, and what those stand for with
//! which identifiers or values begin (X.660, annex A; X.680, section 32; docs/PROFILE.md, section 12).
#![tactic(auto)]

mod given_arcs;
pub mod linked_first_names;
pub mod unequal_names;
