//! What packages state of attributes, and what is wrong with it (X.722, section 8.4; docs/PROFILE.md, section 18).
#![tactic(auto)]

pub mod package_faults;
pub mod statements;

pub use package_faults::note_packages;
pub use statements::all_statements;
