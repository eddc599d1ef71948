//! Moments as text, both ways: GeneralizedTime in UTC, `YYYYMMDDHHMMSSZ` (X.680, section 46), on the calendar of
//! ISO 8601 that `jiff` has.
#![tactic(auto)]

mod clock;
mod digits;
pub mod laws;
mod parts;
mod reading;
mod writing;

pub use clock::LAST_SECOND;
pub use reading::{BadTime, read_time};
pub use writing::write_time;
