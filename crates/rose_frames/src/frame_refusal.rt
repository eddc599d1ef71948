//! Why a piece of a byte stream was refused.

ghost use Rattle.std.specs.Prelude.{◌≡◌};
ghost use Rattle.rose_frames.specs.declared.frame_refusal.FrameRefusal.TheVariants.{Memory};

use std::alloc::{AllocError, AllocFailed};
use thiserror::Error;

/// Why a piece was refused.
#[derive(Clone, Copy, PartialEq, Eq, Debug, Error)]
pub enum FrameRefusal {
    /// A length is past 1,048,576. It is the answer from then on.
    #[error("a length of {length} at octet {at}")]
    TooLong {
        /// The place of the length's first octet in all that was fed, at most 2^64 - 1.
        at: u64,
        /// The length.
        length: u32,
    },
    /// A length is 0. It is the answer from then on.
    #[error("a length of 0 at octet {at}")]
    ZeroLength {
        /// The place of the length's first octet in all that was fed, at most 2^64 - 1.
        at: u64,
    },
    /// There was no memory for the piece, of which nothing was taken.
    #[error("out of memory")]
    Memory,
}

impl From<AllocError> for FrameRefusal {
    ghost from_gives = { λ _ refusal. refusal ≡ Memory };

    fn from(_error: AllocError) -> FrameRefusal {
        FrameRefusal::Memory
    }
}

impl<T: Drop> From<AllocFailed<T>> for FrameRefusal {
    ghost from_gives = { λ _ refusal. refusal ≡ Memory };

    fn from(_error: AllocFailed<T>) -> FrameRefusal {
        FrameRefusal::Memory
    }
}
