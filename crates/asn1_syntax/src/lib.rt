//! ASN.1 modules: types, constraints, and the assignments of a module (X.680; where X.680 has no such form,
//! X.208).
#![tactic(auto)]

pub mod module;
pub mod plain_type;
pub mod presence;
pub mod syntax_laws;
pub mod type_text;

pub use asn1_values_syntax::ValueText;
pub use module::{Assigned, Assignment, Exports, ImportedSymbols, Imports, Module, read_module};
pub use type_text::{Alternative, Component, StructureText, TypeText, read_type};
