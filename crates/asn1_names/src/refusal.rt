//! Why modules are refused.

ghost use Rattle.std.specs.Prelude.{◌≡◌};
ghost use Rattle.asn1_names.specs.declared.refusal.ModuleRefusal.TheVariants.{Memory};

use std::alloc::{AllocError, AllocFailed};
use thiserror::Error;

/// What isn't supported. Where two stand at one token, the earlier one here is told.
#[derive(PartialEq, Eq, Debug, Drop)]
pub enum UnsupportedKind {
    /// A type of ASN.1 that documents may not use.
    TypeWord,
    /// A syntax of more than 10,000 nodes.
    TooManyNodes,
    /// A tag number that isn't from 0 to 2^32 - 1.
    TagNumber,
    /// A named number, a named bit or a bound that isn't a whole number of 64 bits.
    WideNumber,
    /// A constraint that the type has no place for.
    MisplacedConstraint,
}

/// Why modules are refused: the first fault, by document, place and the order of the variants. `token` is the place
/// of the fault's token in its document, in octets from 0.
#[derive(PartialEq, Eq, Debug, Drop, Error)]
pub enum ModuleRefusal {
    /// A name stands for no type or value.
    #[error("unknown type at {token} of document {document}")]
    UnknownType {
        /// The document's number.
        document: u32,
        /// The name.
        token: u64,
    },
    /// A name stands for no module.
    #[error("unknown module at {token} of document {document}")]
    UnknownModule {
        /// The document's number.
        document: u32,
        /// The module's name.
        token: u64,
    },
    /// A type contains itself.
    #[error("cyclic type at {token} of document {document}")]
    CyclicType {
        /// The document's number.
        document: u32,
        /// The type's name at its assignment.
        token: u64,
    },
    /// Something isn't supported.
    #[error("unsupported at {token} of document {document}")]
    Unsupported {
        /// The document's number.
        document: u32,
        /// The word or number.
        token: u64,
        /// What isn't supported.
        kind: UnsupportedKind,
    },
    /// Tags don't tell alternatives or components apart.
    #[error("ambiguous tags at {token} of document {document}")]
    AmbiguousTags {
        /// The document's number.
        document: u32,
        /// The word CHOICE, SET or SEQUENCE.
        token: u64,
    },
    /// There was no memory for the answer.
    #[error("out of memory")]
    Memory,
}

impl From<AllocError> for ModuleRefusal {
    ghost from_gives = { λ _ refusal. refusal ≡ Memory };

    fn from(_error: AllocError) -> ModuleRefusal {
        ModuleRefusal::Memory
    }
}

impl<T: Drop> From<AllocFailed<T>> for ModuleRefusal {
    ghost from_gives = { λ _ refusal. refusal ≡ Memory };

    fn from(_error: AllocFailed<T>) -> ModuleRefusal {
        ModuleRefusal::Memory
    }
}
