//! Trees of tagged values, INTEGERs and OBJECT IDENTIFIERs in octets, read and written: X.690.
#![tactic(auto)]

pub mod ber_refusal;
mod header_reading;
pub mod tree_reading;
pub mod tree_writing;
pub mod value_writing;

pub use ber_refusal::BerRefusal;
pub use term_values::BerKind;
pub use tree_reading::read_tree;
