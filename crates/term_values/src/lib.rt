//! Identifiers, tags, trees of tagged values, syntaxes and typed values: X.680 and X.690.
#![tactic(auto)]

pub mod ber_kind;
pub mod bounds;
pub mod bytes;
pub mod charset;
pub mod comparing;
pub mod copying;
pub mod laws;
pub mod leaf_lengths;
pub mod measuring;
pub mod oid;
pub mod rules;
pub mod syntax;
pub mod tag;
pub mod times;
pub mod tree;
pub mod value;

pub use ber_kind::BerKind;
pub use bytes::Bytes;
pub use charset::Charset;
pub use measuring::der_len;
pub use oid::Oid;
pub use rules::Rules;
pub use syntax::{Names, Part, Parts, Ranges, Syntax, SyntaxForm};
pub use tag::Tag;
pub use tree::{Body, Tree, Trees};
pub use value::{Slot, Slots, Value, ValueForm, Values};
