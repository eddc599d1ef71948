//! That the rules of a schema are whole (X.722, section 8; docs/PROFILE.md, sections 9 and 12). It has no code.
#![tactic(auto)]
