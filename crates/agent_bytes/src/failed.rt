//! How calls of the outside refuse.
use thiserror::Error;

/// A call of the outside failed: its count of faults rose.
#[derive(Clone, Copy, Debug, PartialEq, Eq, Error)]
#[error("a call of the outside failed")]
pub struct Failed;

/// Why a file wasn't read.
#[derive(Clone, Copy, Debug, PartialEq, Eq, Error)]
pub enum FileRefusal {
    /// The file couldn't be opened or read: the files' count of faults rose.
    #[error("the file can't be read")]
    Failed,
    /// The file has more bytes than the limit of the call.
    #[error("the file is longer than its limit")]
    TooLarge,
    /// There is no memory for the file's bytes.
    #[error("no memory for the file")]
    Memory,
}
