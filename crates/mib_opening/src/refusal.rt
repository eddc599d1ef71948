//! Why the objects of the INSTANCES sections can't be opened.

use std::alloc::AllocError;
use thiserror::Error;

/// A refusal of an opening.
#[derive(Clone, Copy, Debug, PartialEq, Eq, Drop, Error)]
pub enum OpeningRefusal {
    /// An instance can't be created.
    #[error("bad instance {index} {error}")]
    BadInstance {
        /// Which one, counted from 1; 0 where there is none.
        index: u32,
        /// The number of the error that its creation has: X.711, section 9; 0 where there is no ROOT, where the ROOT
        /// isn't the first instance, and where it is a second one.
        error: u32,
    },
    /// There isn't memory enough.
    #[error("out of memory")]
    Memory,
}

impl From<AllocError> for OpeningRefusal {
    ghost use Rattle.std.specs.Prelude.{◌≡◌};
    ghost use Rattle.mib_opening.specs.declared.refusal.OpeningRefusal.TheVariants.{Memory};

    ghost from_gives = { λ _ refusal. refusal ≡ Memory };

    fn from(_fault: AllocError) -> OpeningRefusal {
        OpeningRefusal::Memory
    }
}
