//! The tokens of documents and grammars over them: forms, readers of single tokens and of the parts that
//! templates and modules have in common (X.722, section 8.2; X.680, sections 12, 14 and 32).
#![tactic(auto)]

pub mod bytes;
pub mod clause_ending;
pub mod clause_keeping;
pub mod label_reference;
pub mod object_identifier;
pub mod part_keeping;
pub mod part_laws;
pub mod parts_beside;
pub mod qualified_name;
pub mod syntax_refusal;
pub mod token;
pub mod token_reading;
pub mod token_tests;

pub use bytes::Bytes;
pub use syntax_refusal::SyntaxRefusal;
pub use token::Token;
