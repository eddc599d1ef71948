//! Why a text denotes no value.

ghost use Rattle.std.specs.Prelude.{◌≡◌};
ghost use Rattle.asn1_values.specs.declared.value_refusal.ValueRefusal.TheVariants.{Memory};

use std::alloc::AllocError;
use thiserror::Error;

/// Why a text gave no value.
#[derive(Clone, Copy, PartialEq, Eq, Debug, Drop, Error)]
pub enum ValueRefusal {
    /// The text denotes no value of the syntax: `token` is the place in the document, counted from 0 in octets, of the
    /// first token of the whole text.
    #[error("no value of its type at octet {token}")]
    BadValue {
        /// The place.
        token: u64,
    },
    /// There was no memory for the value.
    #[error("out of memory")]
    Memory,
}

impl From<AllocError> for ValueRefusal {
    ghost from_gives = { λ _ refusal. refusal ≡ Memory };

    fn from(_error: AllocError) -> ValueRefusal {
        ValueRefusal::Memory
    }
}
