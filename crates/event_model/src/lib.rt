//! The definitions of events, discriminators and logs: X.721, X.734 and X.735; docs/PROFILE.md, section 21. In code it
//! has the titles of associations, and what is told of the records of a log.
#![tactic(auto)]

pub mod held_records;
pub mod titles;

pub use held_records::{HeldRecord, HeldRecords};
pub use titles::Titles;
