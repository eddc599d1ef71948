//! The objects at the opening: those of the INSTANCES sections, each created as a manager would. docs/PROFILE.md,
//! section 16.
#![tactic(auto)]

pub mod instance_asking;
pub mod instances;
pub mod log_counts;
pub mod log_records;
pub mod record_tests;
pub mod refusal;

pub use instances::opening;
pub use refusal::OpeningRefusal;
