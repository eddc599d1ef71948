//! Why no names in scope were given.

ghost use Rattle.std.specs.Prelude.{◌≡◌};

use std::alloc::{AllocError, AllocFailed};
use thiserror::Error;

/// Why no names in scope were given.
#[derive(Clone, Copy, Debug, PartialEq, Eq, Drop, Error)]
pub enum ScopeRefusal {
    /// More names are in scope than the limit admits.
    #[error("too many names in scope")]
    TooMany,
    /// There was no memory for the names.
    #[error("out of memory")]
    Memory,
}

impl From<AllocError> for ScopeRefusal {
    ghost use Rattle.scope_select.specs.declared.refusal.ScopeRefusal.TheVariants.{Memory};

    ghost from_gives = { λ _ refusal. refusal ≡ Memory };

    fn from(_fault: AllocError) -> ScopeRefusal {
        ScopeRefusal::Memory
    }
}

impl<T: Drop> From<AllocFailed<T>> for ScopeRefusal {
    ghost use Rattle.scope_select.specs.declared.refusal.ScopeRefusal.TheVariants.{Memory};

    ghost from_gives = { λ _ refusal. refusal ≡ Memory };

    fn from(_fault: AllocFailed<T>) -> ScopeRefusal {
        ScopeRefusal::Memory
    }
}
