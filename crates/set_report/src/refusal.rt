//! Why a report wasn't written (docs/PROFILE.md, section 19).

ghost use Rattle.std.specs.Prelude.{◌≡◌};
ghost use Rattle.set_report.specs.declared.refusal.ReportRefusal.TheVariants.{Memory};

use std::alloc::{AllocError, AllocFailed};
use thiserror::Error;

/// Why a report wasn't written.
#[derive(Clone, Copy, PartialEq, Eq, Debug, Error)]
pub enum ReportRefusal {
    /// A call of the output failed: its count of faults rose.
    #[error("a call of the output failed")]
    WriteFault,
    /// There was no memory for the text, of which nothing was written.
    #[error("out of memory")]
    Memory,
}

impl From<AllocError> for ReportRefusal {
    ghost from_gives = { λ _ refusal. refusal ≡ Memory };

    fn from(_error: AllocError) -> ReportRefusal {
        ReportRefusal::Memory
    }
}

impl<T: Drop> From<AllocFailed<T>> for ReportRefusal {
    ghost from_gives = { λ _ refusal. refusal ≡ Memory };

    fn from(_error: AllocFailed<T>) -> ReportRefusal {
        ReportRefusal::Memory
    }
}
