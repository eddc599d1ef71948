//! The requests that the arguments of operations give: X.711, section 7.
#![tactic(auto)]

pub mod actions;
pub mod changes;
pub mod creating;
pub mod operations;
pub mod reports;
pub mod request_reading;
pub mod request_refusal;

pub use request_reading::{read_cancel, read_request};
pub use request_refusal::RequestRefusal;
