//! Frames of a byte stream, and the APDUs of remote operations in them: X.229, section 9; docs/PROFILE.md, section 4.
#![tactic(auto)]

pub mod apdu_reading;
pub mod apdu_refusal;
pub mod apdu_writing;
pub mod frame_refusal;
pub mod framer;
pub mod laws;
pub mod parts;
pub mod pieces;
pub mod tree_copying;

pub use apdu_reading::read_apdu;
pub use apdu_refusal::ApduRefusal;
pub use apdu_writing::write_apdu;
pub use frame_refusal::FrameRefusal;
pub use framer::Framer;
pub use term_model::Apdu;
