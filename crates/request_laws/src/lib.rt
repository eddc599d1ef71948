//! Laws of the requests that arguments give: X.711, section 7.
#![tactic(auto)]

pub mod laws;
