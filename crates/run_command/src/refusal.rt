//! Why a script is not played (docs/OPERATING.md, Commands).

ghost use Rattle.std.specs.Prelude.{◌≡◌};
ghost use Rattle.run_command.specs.Refusals.{compiling_refusal, opening_refusal};
ghost use Rattle.run_command.specs.declared.refusal.RunRefusal.TheVariants.{Memory};

use mib_opening::OpeningRefusal;
use std::alloc::{AllocError, AllocFailed};
use template_compile::{CompileRefusal, Kind};
use thiserror::Error;

/// Why a script is not played on documents.
#[derive(PartialEq, Eq, Debug, Drop, Error)]
pub enum RunRefusal {
    /// A document has a fault: the first one of all documents.
    #[error("bad document {document} {line} {kind:?}")]
    BadDocument {
        /// The number of the document, counted from 1.
        document: u32,
        /// The line of the fault, counted from 1.
        line: u32,
        /// What is wrong there.
        kind: Kind,
    },
    /// An instance can't be opened.
    #[error("bad instance {index} {error}")]
    BadInstance {
        /// The instance, counted from 1; 0 where the ROOT is missing.
        index: u32,
        /// The number of the error that its creation has; 0 where the ROOT is missing, isn't first or stands twice.
        error: u32,
    },
    /// Some class has an action or a notification, or the agent acts on it as a discriminator or a log: such documents
    /// aren't played yet.
    #[error("not built document")]
    UnplayedDocument,
    /// A line of the script breaks the form, or an association that it speaks of is not as it has to be.
    #[error("bad script {line}")]
    BadScript {
        /// The line, counted from 1: the first such one.
        line: u64,
    },
    /// A request of the script is of a kind that isn't carried out yet.
    #[error("not built script")]
    UnplayedScript,
    /// The journal of the script has no room for some entry under the limits of the journal.
    #[error("journal full")]
    JournalFull {
        /// What is printed of the journal, up to the first such entry and without it.
        text: Vec<u8>,
    },
    /// There was no memory.
    #[error("out of memory")]
    Memory,
}

impl From<AllocError> for RunRefusal {
    ghost from_gives = { λ _ refusal. refusal ≡ Memory };

    fn from(_error: AllocError) -> RunRefusal {
        RunRefusal::Memory
    }
}

impl<T: Drop> From<AllocFailed<T>> for RunRefusal {
    ghost from_gives = { λ _ refusal. refusal ≡ Memory };

    fn from(_error: AllocFailed<T>) -> RunRefusal {
        RunRefusal::Memory
    }
}

/// The refusal of documents that are not compiled.
pub(crate) fn of_compiling(refusal: &CompileRefusal) -> RunRefusal
    ensures { result ≡ compiling_refusal refusal.now }
{
    match refusal {
        CompileRefusal::BadDocument {
            document,
            line,
            kind,
        } => RunRefusal::BadDocument {
            document: *document,
            line: *line,
            kind: *kind,
        },
        CompileRefusal::Memory => RunRefusal::Memory,
    }
}

/// The refusal of objects that can't be opened.
pub(crate) fn of_opening(refusal: &OpeningRefusal) -> RunRefusal
    ensures { result ≡ opening_refusal refusal.now }
{
    match refusal {
        OpeningRefusal::BadInstance { index, error } => RunRefusal::BadInstance {
            index: *index,
            error: *error,
        },
        OpeningRefusal::Memory => RunRefusal::Memory,
    }
}
