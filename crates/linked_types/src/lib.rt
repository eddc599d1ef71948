//! The types that linked parts name, each with its syntax once, and the types and rules of attributes (X.680, section
//! 16; X.722, section 8.7).
#![tactic(auto)]

pub mod closing_parts;
pub mod cyclic_attributes;
pub mod derived_attributes;
pub mod member_types;
pub mod type_table;

pub use closing_parts::ClosingParts;
pub use derived_attributes::DerivedAttributes;
pub use member_types::{LinkedTypes, MemberTypes, types_of_parts};
pub use type_table::{NamedType, TypeTable};
