//! Why documents are not read.

ghost use Rattle.std.specs.Prelude.{◌≡◌};
ghost use Rattle.document_parts.specs.declared.document_refusal.DocumentRefusal.TheVariants.{Memory};

use std::alloc::{AllocError, AllocFailed};
use text_lex::LexKind;
use thiserror::Error;

/// Why documents are not read. The number of a document is counted from 1.
#[derive(PartialEq, Eq, Debug, Drop, Error)]
pub enum DocumentRefusal {
    /// The octets of a document are no tokens.
    #[error("{kind:?} at octet {at} of document {document}")]
    Lexing {
        /// The document's number.
        document: u32,
        /// The place of the octet, the number or the string in hand, counted from 0.
        at: u64,
        /// What is wrong there.
        kind: LexKind,
    },
    /// The tokens of a document are no row of templates, modules and sections.
    #[error("syntax fault at token {token} of document {document}")]
    Syntax {
        /// The document's number.
        document: u32,
        /// The first token with which no document goes on, as an index of the document's list of tokens and no place in
        /// octets; how many there are where they end too early.
        token: u64,
    },
    /// There was no memory for what the documents say.
    #[error("out of memory")]
    Memory,
}

impl From<AllocError> for DocumentRefusal {
    ghost from_gives = { λ _ refusal. refusal ≡ Memory };

    fn from(_error: AllocError) -> DocumentRefusal {
        DocumentRefusal::Memory
    }
}

impl<T: Drop> From<AllocFailed<T>> for DocumentRefusal {
    ghost from_gives = { λ _ refusal. refusal ≡ Memory };

    fn from(_error: AllocFailed<T>) -> DocumentRefusal {
        DocumentRefusal::Memory
    }
}
