//! Syntaxes with the values of their DEFAULTs, and the values of names (X.680, sections 16 and 25; docs/PROFILE.md,
//! section 11).
#![tactic(auto)]

pub mod assigned_values;
pub mod bad_texts;
pub mod default_words;
pub mod filling;
pub mod named_things;

pub use bad_texts::{BadTexts, TextPlace};
pub use named_things::NamedThings;
