//! Why no filter was read.

use std::alloc::AllocError;

/// Why no filter was read from a tree.
#[derive(Clone, Copy, Debug, PartialEq, Eq, Drop)]
pub enum FilterRefusal {
    /// The tree is no CMISFilter.
    Mistyped,
    /// There was no memory.
    Memory,
}

impl From<AllocError> for FilterRefusal {
    fn from(_: AllocError) -> FilterRefusal {
        FilterRefusal::Memory
    }
}
