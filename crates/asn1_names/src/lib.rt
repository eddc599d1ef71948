//! What the names of ASN.1 modules mean, and the definitions of what types denote and of what is wrong in modules
//! (X.680; where X.680 has no such form, X.208; docs/PROFILE.md, section 11).
#![tactic(auto)]

pub mod constraint_places;
pub mod first_fault;
pub mod first_words;
pub mod laws;
pub mod name_tables;
pub mod named_numbers;
pub mod narrowing;
pub mod numbers;
pub mod numerals;
pub mod refusal;
pub mod standard_module;
pub mod tag_texts;
pub mod type_walk;
pub mod type_words;

pub use name_tables::Meaning;
pub use refusal::{ModuleRefusal, UnsupportedKind};
