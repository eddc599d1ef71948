//! Typed values in octets, both ways: X.690.
#![tactic(auto)]

pub mod decode_refusal;
pub mod decoding;
pub mod encoding;
pub mod filter_reading;
pub mod identifier_reading;
pub mod leaf_reading;
pub mod leaf_writing;
pub mod member_order;
pub mod string_reading;
pub mod tagging;

pub use decode_refusal::DecodeRefusal;
pub use decoding::decode;
pub use encoding::encode_into;
