//! The arguments of rows that programs of tests answer, and how octets are shown in answers.
#![tactic(auto)]

pub mod reading;
mod row_fault;
pub mod showing;

pub use row_fault::RowFault;
