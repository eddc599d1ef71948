//! Why a tree was not read as an APDU.

ghost use Rattle.std.specs.Prelude.{◌≡◌};
ghost use Rattle.rose_frames.specs.declared.apdu_refusal.ApduRefusal.TheVariants.{Memory};

use std::alloc::{AllocError, AllocFailed};
use thiserror::Error;

/// Why a tree is no APDU of remote operations.
#[derive(Clone, Copy, PartialEq, Eq, Debug, Error)]
pub enum ApduRefusal {
    /// The tag isn't one of a constructed context-specific value with a number from 1 to 4.
    #[error("no APDU has this tag")]
    Unrecognised,
    /// The tag is that of an APDU, and a field is missing, wrong or past its range.
    #[error("the fields are not those of the APDU")]
    MistypedApdu,
    /// There was no memory.
    #[error("out of memory")]
    Memory,
}

impl From<AllocError> for ApduRefusal {
    ghost from_gives = { λ _ refusal. refusal ≡ Memory };

    fn from(_error: AllocError) -> ApduRefusal {
        ApduRefusal::Memory
    }
}

impl<T: Drop> From<AllocFailed<T>> for ApduRefusal {
    ghost from_gives = { λ _ refusal. refusal ≡ Memory };

    fn from(_error: AllocFailed<T>) -> ApduRefusal {
        ApduRefusal::Memory
    }
}
