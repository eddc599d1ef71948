//! That in modules without a fault each type denotes a syntax (X.680, sections 12 to 51; docs/PROFILE.md, section 11).
//! It has no code.
#![tactic(auto)]
