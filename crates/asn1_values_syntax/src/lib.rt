//! The texts of values in ASN.1, and of the numbers, bounds and tags that types state (X.680, sections 17 to 51;
//! X.208), and the table of all forms of ASN.1 that documents may use.
#![tactic(auto)]

pub mod arcs;
pub mod braces_law;
pub mod constraint;
pub mod keyword_law;
pub mod named_number;
pub mod numbers;
pub mod tag;
pub mod value;
pub mod value_laws;

pub use arcs::SureArcs;
pub use numbers::{Bound, SignedNumber};
pub use value::{BracesText, NamedValue, ValuePart, ValueText, read_value};
