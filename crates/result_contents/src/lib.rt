//! What results, linked replies and the parameters of errors hold, written by the one form: X.711, section 7.5. Each is
//! written with its last octet first, so that the length of each part is known when its header is written.
#![tactic(auto)]

pub mod contents;
pub mod error_codes;
pub mod errors;
pub mod failures;
pub mod identifiers;
pub mod information;
pub mod laws;
pub mod names;
pub mod results;

pub use contents::Contents;
