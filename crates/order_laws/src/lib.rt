//! That the classes of a schema stand in an order in which each is behind those from which it derives (X.722, section
//! 8.3; docs/PROFILE.md, sections 12 and 18). It has no code.
#![tactic(auto)]
