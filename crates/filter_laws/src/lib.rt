//! Laws of the filters and assertions of requests: X.711, section 7.5.
#![tactic(auto)]

pub mod laws;
