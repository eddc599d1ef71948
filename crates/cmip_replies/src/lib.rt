//! The frames of replies, event reports and rejects: X.229, section 9; X.711, section 7; docs/PROFILE.md, section 4.
#![tactic(auto)]

pub mod event_writing;
pub mod laws;
pub mod reject_writing;
pub mod reply_writing;

pub use event_writing::write_event;
pub use reject_writing::write_reject;
pub use reply_writing::{own_behind, write_reply};
