//! The refusal of documents for the fault of a phase: its document, its line and its kind (docs/PROFILE.md, section 2).

ghost use Rattle.std.specs.Prelude.{◌≡◌, slice_get};
ghost use Rattle.asn1_names.specs.FirstModuleFault.{TellsFirstFault};
ghost use Rattle.asn1_names.specs.TermViews.{module_terms};
ghost use Rattle.document_parts.specs.ReadDocuments.{AreLexed, IsFirstFault, IsFirstSyntaxFault};
ghost use Rattle.gdmo_names.specs.FirstLabelFault.{TellsFirstFault as TellsFirstLabelFault};
ghost use Rattle.gdmo_names.specs.PartViews.{part_terms};
ghost use Rattle.gdmo_names.specs.declared.parsed.Parsed.{Parsed};
ghost use Rattle.linked_parts.specs.declared.linked.Linked.{Linked};
ghost use Rattle.class_faults.specs.NotedFaults.{TellsFirstFault as TellsFirstClassFault};
ghost use Rattle.template_compile.specs.Acceptance.{AreLinked, AreResolved, SayParts};
ghost use Rattle.template_compile.specs.DocumentFaults.{HasCause, lexing_kind};
ghost use Rattle.template_compile.specs.Lines.{line_at, line_at_token, line_of_token, told_line};
ghost use Rattle.template_compile.specs.declared.refusal.CompileRefusal.TheVariants.{BadDocument};

use crate::refusal::{CompileRefusal, Kind};
use asn1_resolve::ModuleRefusal;
use class_closure::ClassRefusal;
use document_parts::{Doc, DocumentRefusal};
use gdmo_names::{LabelRefusal, Parsed};
use text_lex::{LexKind, Token};

/// The octet that ends a line.
const LINE_FEED: u8 = 10;

/// The line of a place in a document, counted from 1.
fn line_of(document: &[u8], at: usize) -> u32
    ensures { result ≡ told_line document.now at }
{
    let before = if at < document.len() {
        &document[..at]
    } else {
        document
    };
    let mut line = 1u64;
    for octet in before {
        if *octet == LINE_FEED {
            line += 1;
        }
    }
    if line < u64::from(u32::MAX) {
        line as u32
    } else {
        u32::MAX
    }
}

/// The refusal of a fault at a place of a document.
fn fault_at(documents: &[Doc], document: u32, at: u64, kind: Kind) -> CompileRefusal
    ensures { result ≡ BadDocument document (line_at documents.now document at) kind }
{
    let place = (document as usize).saturating_sub(1);
    let line = match documents.get(place) {
        Some(found) => line_of(found.bytes.as_slice(), at as usize),
        None => 1,
    };
    CompileRefusal::BadDocument {
        document,
        line,
        kind,
    }
}

/// The line of the token at an index of a document's tokens.
fn line_of_token(document: &[u8], tokens: &[Token], token: usize) -> u32
    ensures { result ≡ line_of_token document.now (slice_get tokens.now token) }
{
    match tokens.get(token) {
        Some(found) => line_of(document, found.at as usize),
        None => line_of(document, document.len()),
    }
}

/// The line of the token at an index of the tokens of a document among others.
fn line_at_token(documents: &[Doc], lists: &[Vec<Token>], document: u32, token: u64) -> u32
    ensures { result ≡ line_at_token documents.now lists.now document token }
{
    let place = (document as usize).saturating_sub(1);
    match (documents.get(place), lists.get(place)) {
        (Some(found), Some(tokens)) => {
            line_of_token(found.bytes.as_slice(), tokens.as_slice(), token as usize)
        }
        (Some(found), None) => line_of(found.bytes.as_slice(), found.bytes.len()),
        (None, _) => 1,
    }
}

fn lexing_kind(kind: LexKind) -> Kind
    ensures { result ≡ lexing_kind kind }
{
    match kind {
        LexKind::BadByte => Kind::BadByte,
        LexKind::OpenString => Kind::OpenString,
        LexKind::BadNumber => Kind::BadNumber,
        LexKind::BadBits => Kind::BadBits,
    }
}

/// The refusal for a fault of the octets of documents.
pub(crate) fn refusal_of_octets(documents: &[Doc], refusal: &DocumentRefusal) -> CompileRefusal
    ensures { IsFirstFault documents.now refusal.now → HasCause documents.now result }
{
    match refusal {
        DocumentRefusal::Lexing { document, at, kind } => {
            fault_at(documents, *document, *at, lexing_kind(*kind))
        }
        DocumentRefusal::Syntax { .. } | DocumentRefusal::Memory => CompileRefusal::Memory,
    }
}

/// The refusal for a fault of the tokens of documents.
pub(crate) fn refusal_of_tokens(
    documents: &[Doc],
    lists: &[Vec<Token>],
    refusal: &DocumentRefusal,
) -> CompileRefusal
    ensures { AreLexed documents.now lists.now → IsFirstSyntaxFault lists.now refusal.now →
        HasCause documents.now result }
{
    match refusal {
        DocumentRefusal::Syntax { document, token } => CompileRefusal::BadDocument {
            document: *document,
            line: line_at_token(documents, lists, *document, *token),
            kind: Kind::Syntax,
        },
        DocumentRefusal::Lexing { .. } | DocumentRefusal::Memory => CompileRefusal::Memory,
    }
}

/// The refusal for a fault of the modules of documents.
pub(crate) fn refusal_of_modules(
    documents: &[Doc],
    parts: &Parsed,
    refusal: &ModuleRefusal,
) -> CompileRefusal
    ensures { SayParts documents.now parts.now → TellsFirstFault (module_terms parts.now.modules.items) refusal.now →
        HasCause documents.now result }
{
    match refusal {
        ModuleRefusal::UnknownType { document, token } => {
            fault_at(documents, *document, *token, Kind::UnknownType)
        }
        ModuleRefusal::UnknownModule { document, token } => {
            fault_at(documents, *document, *token, Kind::UnknownModule)
        }
        ModuleRefusal::CyclicType { document, token } => {
            fault_at(documents, *document, *token, Kind::CyclicType)
        }
        ModuleRefusal::Unsupported {
            document,
            token,
            ..
        } => fault_at(documents, *document, *token, Kind::Unsupported),
        ModuleRefusal::AmbiguousTags { document, token } => {
            fault_at(documents, *document, *token, Kind::AmbiguousTags)
        }
        ModuleRefusal::Memory => CompileRefusal::Memory,
    }
}

/// The refusal for a fault of the references of documents.
pub(crate) fn refusal_of_labels(documents: &[Doc], refusal: &LabelRefusal) -> CompileRefusal
    ensures { (parts : Parsed) → AreResolved documents.now parts →
        TellsFirstLabelFault (part_terms parts) refusal.now → HasCause documents.now result }
{
    match refusal {
        LabelRefusal::UnknownLabel { document, token } => {
            fault_at(documents, *document, *token, Kind::UnknownLabel)
        }
        LabelRefusal::WrongKind { document, token } => {
            fault_at(documents, *document, *token, Kind::WrongKind)
        }
        LabelRefusal::DoubleLabel { document, token } => {
            fault_at(documents, *document, *token, Kind::DoubleLabel)
        }
        LabelRefusal::DoubleIdentifier { document, token } => {
            fault_at(documents, *document, *token, Kind::DoubleIdentifier)
        }
        LabelRefusal::Memory => CompileRefusal::Memory,
    }
}

/// The refusal for a fault of the classes of documents.
pub(crate) fn refusal_of_classes(documents: &[Doc], refusal: &ClassRefusal) -> CompileRefusal
    ensures { (parts : Parsed) (linked : Linked) → AreLinked documents.now parts linked →
        TellsFirstClassFault (module_terms parts.modules.items) linked refusal.now → HasCause documents.now result }
{
    match refusal {
        ClassRefusal::CyclicClass { document, token } => {
            fault_at(documents, *document, *token, Kind::CyclicClass)
        }
        ClassRefusal::UnequalDefault { document, token } => {
            fault_at(documents, *document, *token, Kind::UnequalDefault)
        }
        ClassRefusal::EmptyPermitted { document, token } => {
            fault_at(documents, *document, *token, Kind::EmptyPermitted)
        }
        ClassRefusal::NotSetValued { document, token } => {
            fault_at(documents, *document, *token, Kind::NotSetValued)
        }
        ClassRefusal::BadValue { document, token } => {
            fault_at(documents, *document, *token, Kind::BadValue)
        }
        ClassRefusal::Memory => CompileRefusal::Memory,
    }
}
