//! Tests of the crates that read documents, of what a row of a table can't say.
#![tactic(auto)]

#[cfg(test)]
mod deep_tests;
