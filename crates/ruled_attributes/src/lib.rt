//! That the rules of a schema name attributes that they may name (X.722, section 8; docs/PROFILE.md, sections 9 and
//! 12). It has no code.
#![tactic(auto)]
