//! Whether a value has a syntax: X.680, sections 17 to 51.
#![tactic(auto)]

mod fitting;
mod kept;
mod leaves;
mod rising;

pub use fitting::fits;
