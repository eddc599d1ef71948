//! That linked parts have one schema at most (X.722, section 8; docs/PROFILE.md, section 18). It has no code.
#![tactic(auto)]
