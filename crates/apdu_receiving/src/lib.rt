//! What an APDU of an association brings: X.229, sections 8 and 9; X.711, section 7.
#![tactic(auto)]

mod invoke_parts;
pub mod problems;
pub mod received;
pub mod receiving;

pub use received::Received;
pub use receiving::receive_apdu;
