//! Why a row isn't answered.

use std::alloc::{AllocError, AllocFailed};

/// Why a row isn't answered.
#[derive(Clone, Copy, Debug, PartialEq, Eq)]
pub enum RowFault {
    /// No crate or no call has the row's name.
    Call,
    /// There are fewer arguments than the call takes.
    Arguments,
    /// An argument isn't hexadecimal digits in pairs.
    Octets,
    /// An argument isn't a number of the call's range.
    Number,
    /// An argument isn't arcs of an identifier.
    Arcs,
    /// An argument isn't one of the words that the call takes.
    Word,
    /// The octets of an argument spell no tree.
    Tree,
    /// The octets of an argument are no APDU.
    Apdu,
    /// There was no memory.
    Memory,
}

impl RowFault {
    /// What is printed in place of an answer.
    pub fn text(self) -> &'static str {
        match self {
            RowFault::Call => "unreadable: no such call",
            RowFault::Arguments => "unreadable: an argument is missing",
            RowFault::Octets => "unreadable: no hexadecimal digits in pairs",
            RowFault::Number => "unreadable: no number in the range",
            RowFault::Arcs => "unreadable: no arcs of an identifier",
            RowFault::Word => "unreadable: no such word",
            RowFault::Tree => "unreadable: the octets are no tree",
            RowFault::Apdu => "unreadable: the octets are no APDU",
            RowFault::Memory => "failed: no memory",
        }
    }
}

impl From<AllocError> for RowFault {
    fn from(_error: AllocError) -> RowFault {
        RowFault::Memory
    }
}

impl<T: Drop> From<AllocFailed<T>> for RowFault {
    fn from(_error: AllocFailed<T>) -> RowFault {
        RowFault::Memory
    }
}
