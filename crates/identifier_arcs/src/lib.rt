//! The arcs of object identifiers, their first names replaced (X.660, annex A; X.680, section 32; docs/PROFILE.md,
//! section 12).
#![tactic(auto)]

pub mod arc_texts;
pub mod chains;
pub mod known_arcs;
