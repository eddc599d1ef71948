//! Why an argument was not read as a request.

use std::alloc::AllocError;
use thiserror::Error;

/// Why an argument gives no request.
#[derive(Clone, Copy, PartialEq, Eq, Debug, Error)]
pub enum RequestRefusal {
    /// The argument isn't one of the operation, or no operation has this number.
    #[error("the argument is none of the operation")]
    Mistyped,
    /// There was no memory.
    #[error("out of memory")]
    Memory,
}

impl From<AllocError> for RequestRefusal {
    fn from(_error: AllocError) -> RequestRefusal {
        RequestRefusal::Memory
    }
}
