//! Why no value was read.

use std::alloc::AllocError;

/// Why no value was read from a tree.
#[derive(Clone, Copy, Debug, PartialEq, Eq, Drop)]
pub enum DecodeRefusal {
    /// The tree denotes no value of the syntax.
    Misfit,
    /// There was no memory.
    Memory,
}

impl From<AllocError> for DecodeRefusal {
    fn from(_: AllocError) -> DecodeRefusal {
        DecodeRefusal::Memory
    }
}
