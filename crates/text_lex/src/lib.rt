//! The tokens of a document: its words, numbers, strings and signs (X.722, section 8.2, and X.680,
//! section 12, in the forms that this project accepts).
#![tactic(auto)]

pub mod lex_refusal;
pub mod lexing;
mod lexing_ends;
pub mod lexing_laws;
mod lexing_octets;
mod lexing_pieces;
pub mod numerals;

pub use lex_refusal::{LexKind, LexRefusal};
pub use lexing::lex;
pub use token_grammar::{Bytes, SyntaxRefusal, Token};
