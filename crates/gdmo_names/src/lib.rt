//! The templates of a set of documents, what labels mean, and the first fault of references (X.722, section 8;
//! docs/PROFILE.md, section 12).
#![tactic(auto)]

pub mod finding_attributes;
pub mod finding_classes;
pub mod finding_members;
pub mod finding_packages;
pub mod first_fault;
pub mod found;
pub mod parsed;
pub mod refusal;
pub mod roles;

pub use parsed::Parsed;
pub use refusal::LabelRefusal;
