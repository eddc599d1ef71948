//! Documents compiled to the records of a schema, in five phases (X.722; docs/PROFILE.md, section 2).
#![tactic(auto)]

pub mod compiling;
pub mod counts;
mod fault_lines;
pub mod refusal;
pub mod template_counts;

pub use compiling::{Compiled, compile, compile_documents};
pub use counts::Counts;
pub use document_parts::Doc;
pub use refusal::{CompileRefusal, Kind};
pub use shipped_documents::DMI;
