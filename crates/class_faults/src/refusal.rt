//! Why classes are refused.

ghost use Rattle.std.specs.Prelude.{◌≡◌};
ghost use Rattle.class_faults.specs.declared.refusal.ClassRefusal.TheVariants.{Memory};

use std::alloc::{AllocError, AllocFailed};
use thiserror::Error;

/// Why classes are refused: the first fault, by document, place and the order of the variants. `token` is the place of
/// the fault's token in its document, in octets from 0.
#[derive(PartialEq, Eq, Debug, Drop, Error)]
pub enum ClassRefusal {
    /// A class, or an attribute, derives from itself.
    #[error("cyclic class at {token} of document {document}")]
    CyclicClass {
        /// The document's number.
        document: u32,
        /// The label.
        token: u64,
    },
    /// Two defaults, or two initial values, of one attribute are unequal.
    #[error("unequal default at {token} of document {document}")]
    UnequalDefault {
        /// The document's number.
        document: u32,
        /// The label of the class.
        token: u64,
    },
    /// No value of an attribute is permitted.
    #[error("empty permitted values at {token} of document {document}")]
    EmptyPermitted {
        /// The document's number.
        document: u32,
        /// The label of the class.
        token: u64,
    },
    /// Members are added to, or removed from, what is no set.
    #[error("no set at {token} of document {document}")]
    NotSetValued {
        /// The document's number.
        document: u32,
        /// The word ADD, REMOVE or ADD-REMOVE.
        token: u64,
    },
    /// A value doesn't fit.
    #[error("bad value at {token} of document {document}")]
    BadValue {
        /// The document's number.
        document: u32,
        /// The value, or its name.
        token: u64,
    },
    /// There was no memory for the answer.
    #[error("out of memory")]
    Memory,
}

impl From<AllocError> for ClassRefusal {
    ghost from_gives = { λ _ refusal. refusal ≡ Memory };

    fn from(_error: AllocError) -> ClassRefusal {
        ClassRefusal::Memory
    }
}

impl<T: Drop> From<AllocFailed<T>> for ClassRefusal {
    ghost from_gives = { λ _ refusal. refusal ≡ Memory };

    fn from(_error: AllocFailed<T>) -> ClassRefusal {
        ClassRefusal::Memory
    }
}
