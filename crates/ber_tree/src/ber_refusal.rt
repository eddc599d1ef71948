//! Why octets were not read as a tree.

ghost use Rattle.std.specs.Prelude.{◌≡◌};
ghost use Rattle.ber_tree.specs.declared.ber_refusal.BerRefusal.TheVariants.{Memory};

use std::alloc::{AllocError, AllocFailed};
use term_values::BerKind;
use thiserror::Error;

/// Why no tree was read.
#[derive(Clone, Copy, PartialEq, Eq, Debug, Error)]
pub enum BerRefusal {
    /// No front of the octets spells a tree. `at` is the place of the first octet of the value in hand; for `NoEnd` of
    /// the indefinite value, for an end of contents that isn't 0000 of that end, for `Truncated` the number of octets.
    #[error("{kind:?} at octet {at}")]
    Fault {
        /// The place, counted from 0.
        at: u64,
        /// What is wrong there.
        kind: BerKind,
    },
    /// There was no memory for the tree.
    #[error("out of memory")]
    Memory,
}

impl From<AllocError> for BerRefusal {
    ghost from_gives = { λ _ refusal. refusal ≡ Memory };

    fn from(_error: AllocError) -> BerRefusal {
        BerRefusal::Memory
    }
}

impl<T: Drop> From<AllocFailed<T>> for BerRefusal {
    ghost from_gives = { λ _ refusal. refusal ≡ Memory };

    fn from(_error: AllocFailed<T>) -> BerRefusal {
        BerRefusal::Memory
    }
}
