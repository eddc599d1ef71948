//! Why nothing is printed of documents (docs/PROFILE.md, sections 2 and 16).

ghost use Rattle.std.specs.Prelude.{◌≡◌};
ghost use Rattle.set_commands.specs.CommandTexts.{compiling_refusal, opening_refusal};
ghost use Rattle.set_commands.specs.declared.refusal.SetRefusal.TheVariants.{Memory};

use mib_opening::OpeningRefusal;
use std::alloc::{AllocError, AllocFailed};
use template_compile::{CompileRefusal, Kind};
use thiserror::Error;

/// Why documents are not accepted, or their objects can't be opened.
#[derive(PartialEq, Eq, Debug, Drop, Error)]
pub enum SetRefusal {
    /// A document has a fault: the first one of all documents.
    #[error("bad document {document} {line} {kind:?}")]
    BadDocument {
        /// The number of the document, counted from 1.
        document: u32,
        /// The line of the fault, counted from 1.
        line: u32,
        /// What is wrong there.
        kind: Kind,
    },
    /// An instance can't be opened.
    #[error("bad instance {index} {error}")]
    BadInstance {
        /// The instance, counted from 1; 0 where the ROOT is missing.
        index: u32,
        /// The number of the error that its creation has; 0 where the ROOT is missing, isn't first or stands twice.
        error: u32,
    },
    /// There was no memory for the answer.
    #[error("out of memory")]
    Memory,
}

impl From<AllocError> for SetRefusal {
    ghost from_gives = { λ _ refusal. refusal ≡ Memory };

    fn from(_error: AllocError) -> SetRefusal {
        SetRefusal::Memory
    }
}

impl<T: Drop> From<AllocFailed<T>> for SetRefusal {
    ghost from_gives = { λ _ refusal. refusal ≡ Memory };

    fn from(_error: AllocFailed<T>) -> SetRefusal {
        SetRefusal::Memory
    }
}

/// The refusal of documents that are not compiled.
pub(crate) fn of_compiling(refusal: &CompileRefusal) -> SetRefusal
    ensures { result ≡ compiling_refusal refusal.now }
{
    match refusal {
        CompileRefusal::BadDocument {
            document,
            line,
            kind,
        } => SetRefusal::BadDocument {
            document: *document,
            line: *line,
            kind: *kind,
        },
        CompileRefusal::Memory => SetRefusal::Memory,
    }
}

/// The refusal of objects that can't be opened.
pub(crate) fn of_opening(refusal: &OpeningRefusal) -> SetRefusal
    ensures { result ≡ opening_refusal refusal.now }
{
    match refusal {
        OpeningRefusal::BadInstance { index, error } => SetRefusal::BadInstance {
            index: *index,
            error: *error,
        },
        OpeningRefusal::Memory => SetRefusal::Memory,
    }
}
