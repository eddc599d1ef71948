//! Why tokens were not read as the form that was asked for.

ghost use Rattle.std.specs.Prelude.{◌≡◌};
ghost use Rattle.token_grammar.specs.declared.syntax_refusal.SyntaxRefusal.TheVariants.{Memory};

use std::alloc::{AllocError, AllocFailed};
use thiserror::Error;

/// Why tokens were not read.
#[derive(PartialEq, Eq, Debug, Drop, Error)]
pub enum SyntaxRefusal {
    /// The form doesn't go on with the token of this number, counted from 0; the number of tokens,
    /// where they end too early.
    #[error("syntax error at token {token}")]
    Syntax {
        /// The token's number.
        token: u64,
    },
    /// There was no memory for the answer.
    #[error("out of memory")]
    Memory,
}

impl From<AllocError> for SyntaxRefusal {
    ghost from_gives = { λ _ refusal. refusal ≡ Memory };

    fn from(_error: AllocError) -> SyntaxRefusal {
        SyntaxRefusal::Memory
    }
}

impl<T: Drop> From<AllocFailed<T>> for SyntaxRefusal {
    ghost from_gives = { λ _ refusal. refusal ≡ Memory };

    fn from(_error: AllocFailed<T>) -> SyntaxRefusal {
        SyntaxRefusal::Memory
    }
}
