//! The definitions of whole operations over scope and filter: X.711, section 7.5; docs/PROFILE.md, section 17.
#![tactic(auto)]
