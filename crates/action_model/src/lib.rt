//! The definitions of what an m-Action and an m-EventReport do to one object: X.711, section 7; docs/PROFILE.md, section
//! 15.
#![tactic(auto)]
