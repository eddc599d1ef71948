//! Why documents are not compiled: the first fault of the phases (docs/PROFILE.md, section 2).

ghost use Rattle.std.specs.Prelude.{◌≡◌};
ghost use Rattle.template_compile.specs.declared.refusal.CompileRefusal.TheVariants.{Memory};

use std::alloc::{AllocError, AllocFailed};
use thiserror::Error;

/// What is wrong in a document. The phases stand in their order, and in each the faults of which the first is told where
/// several lie at one token.
#[derive(Clone, Copy, PartialEq, Eq, Debug, Drop)]
pub enum Kind {
    /// An octet begins no token, or may stand in strings and comments alone.
    BadByte,
    /// A string has no end.
    OpenString,
    /// A number is greater than 18,446,744,073,709,551,615.
    BadNumber,
    /// What begins with an apostrophe is no hexadecimal and no binary string.
    BadBits,
    /// No document goes on with a token, or the tokens end too early.
    Syntax,
    /// A name stands for no type or value.
    UnknownType,
    /// A name stands for no module.
    UnknownModule,
    /// A type contains itself.
    CyclicType,
    /// A type, a tag, a number or a constraint isn't supported.
    Unsupported,
    /// Tags don't tell alternatives or components apart.
    AmbiguousTags,
    /// No template, module, type or value has a name.
    UnknownLabel,
    /// What a name means may not stand there, or an identifier is none: docs/PROFILE.md, section 12, has each case.
    WrongKind,
    /// A name has two meanings.
    DoubleLabel,
    /// Two templates are registered under one identifier.
    DoubleIdentifier,
    /// A class, or an attribute, derives from itself.
    CyclicClass,
    /// Two defaults, or two initial values, of one attribute are unequal.
    UnequalDefault,
    /// No value of an attribute is permitted.
    EmptyPermitted,
    /// Members are added to, or removed from, what is no set.
    NotSetValued,
    /// A value doesn't fit.
    BadValue,
}

/// Why documents are not compiled.
#[derive(PartialEq, Eq, Debug, Drop, Error)]
pub enum CompileRefusal {
    /// The first fault: by phase, by document and by place.
    #[error("bad document {document} {line} {kind:?}")]
    BadDocument {
        /// The number of the document, counted from 1.
        document: u32,
        /// The line of the fault, counted from 1.
        line: u32,
        /// What is wrong there.
        kind: Kind,
    },
    /// There was no memory for the records.
    #[error("out of memory")]
    Memory,
}

impl From<AllocError> for CompileRefusal {
    ghost from_gives = { λ _ refusal. refusal ≡ Memory };

    fn from(_error: AllocError) -> CompileRefusal {
        CompileRefusal::Memory
    }
}

impl<T: Drop> From<AllocFailed<T>> for CompileRefusal {
    ghost from_gives = { λ _ refusal. refusal ≡ Memory };

    fn from(_error: AllocFailed<T>) -> CompileRefusal {
        CompileRefusal::Memory
    }
}
