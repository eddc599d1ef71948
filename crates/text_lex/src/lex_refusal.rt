//! Why the octets of a document are no tokens.

ghost use Rattle.std.specs.Prelude.{◌≡◌};
ghost use Rattle.text_lex.specs.declared.lex_refusal.LexRefusal.TheVariants.{Memory};

use std::alloc::{AllocError, AllocFailed};
use thiserror::Error;

/// What is wrong at the first place where a document can't go on.
#[derive(Clone, Copy, PartialEq, Eq, Debug)]
pub enum LexKind {
    /// The octet begins no token, or may stand in strings and comments alone.
    BadByte,
    /// A string has no end.
    OpenString,
    /// A number is greater than 18,446,744,073,709,551,615.
    BadNumber,
    /// What begins with an apostrophe is no hexadecimal and no binary string.
    BadBits,
}

/// Why no tokens were read.
#[derive(PartialEq, Eq, Debug, Drop, Error)]
pub enum LexRefusal {
    /// The document can't go on: `at` is the place of the octet, the number or the string in hand,
    /// counted from 0.
    #[error("{kind:?} at octet {at}")]
    Fault {
        /// The place.
        at: u64,
        /// What is wrong there.
        kind: LexKind,
    },
    /// There was no memory for the tokens.
    #[error("out of memory")]
    Memory,
}

impl From<AllocError> for LexRefusal {
    ghost from_gives = { λ _ refusal. refusal ≡ Memory };

    fn from(_error: AllocError) -> LexRefusal {
        LexRefusal::Memory
    }
}

impl<T: Drop> From<AllocFailed<T>> for LexRefusal {
    ghost from_gives = { λ _ refusal. refusal ≡ Memory };

    fn from(_error: AllocFailed<T>) -> LexRefusal {
        LexRefusal::Memory
    }
}
