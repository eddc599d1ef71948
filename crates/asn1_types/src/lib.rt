//! The syntaxes that types of ASN.1 modules denote, and what resolved modules tell of names (X.680, sections 13 to 51;
//! docs/PROFILE.md, section 11).
#![tactic(auto)]

mod building;
mod constraining;
mod defaults;
mod following;
pub mod laws;
mod plain_syntax;
mod returning;
mod said_numbers;
pub mod types;

pub use types::Types;
