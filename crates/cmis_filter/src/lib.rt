//! Filters of scoped operations: X.711, section 7.5, type CMISFilter.
#![tactic(auto)]

pub mod assertions;
pub mod comparing;
pub mod evaluation;
pub mod filter_limits;
pub mod filter_reading;
pub mod filter_refusal;
pub mod given_reading;
pub mod held_values;
pub mod invalid_filter;
pub mod item_reading;
pub mod items;
pub mod laws;
pub mod validity;

pub use evaluation::holds;
pub use filter_reading::read_filter;
pub use filter_refusal::FilterRefusal;
pub use invalid_filter::InvalidFilter;
pub use validity::is_valid;
