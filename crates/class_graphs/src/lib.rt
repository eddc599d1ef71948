//! How classes stand to each other, which attributes they have, and by which their objects are named (X.720, section 5;
//! X.722, sections 8.3, 8.4 and 8.6; docs/PROFILE.md, section 12).
#![tactic(auto)]

pub mod class_members;
mod naming_links;
mod role_links;
mod root_links;
