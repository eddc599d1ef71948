//! Documents as what they say: their modules, templates and sections, each with the number of its document (X.722,
//! section 8.2; docs/PROFILE.md, section 2).
#![tactic(auto)]

pub mod document_refusal;
pub mod documents;
pub mod gathering;
pub mod numbering;

pub use document_refusal::DocumentRefusal;
pub use documents::{Doc, lex_documents, read_documents};
