//! Why references are refused.

ghost use Rattle.std.specs.Prelude.{◌≡◌};
ghost use Rattle.gdmo_names.specs.declared.refusal.LabelRefusal.TheVariants.{Memory};

use std::alloc::{AllocError, AllocFailed};
use thiserror::Error;

/// Why references are refused: the first fault, by document, place and the order of the variants. `token` is the place
/// of the fault's token in its document, in octets from 0.
#[derive(PartialEq, Eq, Debug, Drop, Error)]
pub enum LabelRefusal {
    /// No template, module, type or value has the name.
    #[error("unknown label at {token} of document {document}")]
    UnknownLabel {
        /// The document's number.
        document: u32,
        /// The name.
        token: u64,
    },
    /// What the name means may not stand there.
    #[error("wrong kind at {token} of document {document}")]
    WrongKind {
        /// The document's number.
        document: u32,
        /// The name, or the brace of an identifier.
        token: u64,
    },
    /// A name has two meanings.
    #[error("double label at {token} of document {document}")]
    DoubleLabel {
        /// The document's number.
        document: u32,
        /// The later one.
        token: u64,
    },
    /// Two templates are registered under one identifier.
    #[error("double identifier at {token} of document {document}")]
    DoubleIdentifier {
        /// The document's number.
        document: u32,
        /// The brace of the later one.
        token: u64,
    },
    /// There was no memory for the answer.
    #[error("out of memory")]
    Memory,
}

impl From<AllocError> for LabelRefusal {
    ghost from_gives = { λ _ refusal. refusal ≡ Memory };

    fn from(_error: AllocError) -> LabelRefusal {
        LabelRefusal::Memory
    }
}

impl<T: Drop> From<AllocFailed<T>> for LabelRefusal {
    ghost from_gives = { λ _ refusal. refusal ≡ Memory };

    fn from(_error: AllocFailed<T>) -> LabelRefusal {
        LabelRefusal::Memory
    }
}
