//! Whether two types are the same: X.680, section 3.
#![tactic(auto)]

mod equality;
mod leaf_parts;

pub use equality::same_syntax;
