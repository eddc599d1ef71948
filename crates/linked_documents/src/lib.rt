//! All parts of a set of documents with the targets of their references, where no reference is missing (X.722, section 8;
//! docs/PROFILE.md, section 12).
#![tactic(auto)]

pub mod linking_parts;

pub use linking_parts::link_parts;
