//! The command `run`: a script played on the objects of documents (docs/OPERATING.md, Commands).
#![tactic(auto)]

pub mod refusal;
pub mod running;

pub use refusal::RunRefusal;
pub use running::run_text;
