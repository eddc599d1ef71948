//! How a command ends when it is not done: its status, and the line that says why (docs/OPERATING.md, Commands).

ghost use Rattle.std.specs.Prelude.{◌≡◌, ◌++◌, ℕ, List, IfOk, OnOk};
ghost use Rattle.term_model.specs.LineTexts.{line_feed};
ghost use Rattle.agent_run.specs.Refusing.{HasRunCause, HasSetCause, bad_document_line, bad_instance_line};
ghost use Rattle.agent_run.specs.Refusing.{bad_script_line, kind_name, line_of, numbered, status_of, two_numbers};
ghost use Rattle.agent_run.specs.Refusing.{text_before, text_of, unbuilt_name};
ghost use Rattle.run_command.specs.RunCauses.{HasCause as HasRunRefusalCause};
ghost use Rattle.set_commands.specs.CommandTexts.{HasCause as HasSetRefusalCause};
ghost use Rattle.document_parts.specs.declared.documents.Doc.{Doc};

use journal_text::texts::{LINE_FEED, write_decimal};
use run_command::RunRefusal;
use set_commands::{Kind, SetRefusal};
use std::alloc::{AllocError, Global};

/// Everything was done and written.
pub const DONE: u8 = 0;

/// The words are in no form.
pub const USAGE: u8 = 2;

/// A call of the files failed.
pub const FILE_FAULT: u8 = 3;

/// A document has a fault, or an instance can't be opened.
pub const BAD_DOCUMENT: u8 = 4;

/// A line of the script breaks its form or a condition.
pub const BAD_SCRIPT: u8 = 5;

/// A call of the output failed.
pub const WRITE_FAULT: u8 = 6;

/// There was no memory.
pub const OUT_OF_MEMORY: u8 = 8;

/// The journal of a script is full.
pub const JOURNAL_FULL: u8 = 9;

/// A file is longer than its limit.
pub const FILE_TOO_LARGE: u8 = 10;

/// The command, the documents or the script are of a form that is not built.
pub const NOT_BUILT: u8 = 12;

/// What is not built.
#[derive(Clone, Copy, Debug, PartialEq, Eq)]
pub enum Unbuilt {
    /// The command of the words.
    Command,
    /// The running of these documents.
    Document,
    /// The script.
    Script,
}

/// Why a command is not done.
#[derive(Debug, PartialEq, Eq, Drop)]
pub enum Refusal<'a> {
    /// The words are in no form.
    Usage,
    /// A file could not be read.
    FileFault(&'a str),
    /// A file is longer than its limit.
    FileTooLarge(&'a str),
    /// A document has a fault: the document's number and the line, each counted from 1, and what is wrong there.
    BadDocument(u32, u32, Kind),
    /// An instance can't be opened: which one, counted from 1, or 0 where the ROOT is missing; and the number of the
    /// error that its creation has, or 0 where the ROOT is missing, isn't first or stands twice.
    BadInstance(u32, u32),
    /// A line of the script, counted from 1, breaks the form, or an association is not as the line asks.
    BadScript(u64),
    /// What the words name is not built.
    NotBuilt(Unbuilt),
    /// The journal of the script has no room for some entry. What is printed of the entries before the first such one.
    JournalFull(Vec<u8>),
    /// There was no memory.
    OutOfMemory,
}

/// The name of a fault of documents.
fn kind_name(kind: Kind) -> &'static str
    ensures { result.now ≡ kind_name kind }
{
    match kind {
        Kind::BadByte => "BadByte",
        Kind::OpenString => "OpenString",
        Kind::BadNumber => "BadNumber",
        Kind::BadBits => "BadBits",
        Kind::Syntax => "Syntax",
        Kind::UnknownType => "UnknownType",
        Kind::UnknownModule => "UnknownModule",
        Kind::CyclicType => "CyclicType",
        Kind::Unsupported => "Unsupported",
        Kind::AmbiguousTags => "AmbiguousTags",
        Kind::UnknownLabel => "UnknownLabel",
        Kind::WrongKind => "WrongKind",
        Kind::DoubleLabel => "DoubleLabel",
        Kind::DoubleIdentifier => "DoubleIdentifier",
        Kind::CyclicClass => "CyclicClass",
        Kind::UnequalDefault => "UnequalDefault",
        Kind::EmptyPermitted => "EmptyPermitted",
        Kind::NotSetValued => "NotSetValued",
        Kind::BadValue => "BadValue",
    }
}

/// The name of what is not built.
fn unbuilt_name(what: Unbuilt) -> &'static str
    ensures { result.now ≡ unbuilt_name what }
{
    match what {
        Unbuilt::Command => "command",
        Unbuilt::Document => "document",
        Unbuilt::Script => "script",
    }
}

/// Appends words, and what stands behind them up to the end of the line.
fn write_line(words: &str, rest: &str, into: &mut Vec<u8>) -> Result<(), AllocError>
    ensures { OnOk result (into.new.items ≡ into.old.items ++ (words.now ++ (rest.now ++ line_feed))) }
{
    into.extend_from_slice(words.as_bytes())?;
    into.extend_from_slice(rest.as_bytes())?;
    into.push(LINE_FEED)?;
    Ok(())
}

/// Appends words and a number.
fn write_numbered(words: &str, number: u64, into: &mut Vec<u8>) -> Result<(), AllocError>
    ensures { OnOk result (into.new.items ≡ into.old.items ++ numbered words.now number) }
{
    into.extend_from_slice(words.as_bytes())?;
    write_decimal(number, into)
}

/// Appends words and two numbers with a blank between them.
#[tactic(auto, unfolding(crate::specs::Refusing::two_numbers))]
fn write_two_numbers(
    words: &str,
    one: u32,
    other: u32,
    into: &mut Vec<u8>,
) -> Result<(), AllocError>
    ensures { OnOk result (into.new.items ≡ into.old.items ++ two_numbers words.now one other) }
{
    write_numbered(words, u64::from(one), into)?;
    write_numbered(" ", u64::from(other), into)
}

/// Appends the line of a document's fault.
fn write_document_line(
    document: u32,
    line: u32,
    kind: Kind,
    into: &mut Vec<u8>,
) -> Result<(), AllocError>
    ensures { OnOk result (into.new.items ≡ into.old.items ++ bad_document_line document line kind) }
{
    let name = kind_name(kind);
    write_two_numbers("bad document ", document, line, into)?;
    write_line(" ", name, into)?;
    Ok(())
}

/// Appends the line of an instance that can't be opened.
fn write_instance_line(index: u32, error: u32, into: &mut Vec<u8>) -> Result<(), AllocError>
    ensures { OnOk result (into.new.items ≡ into.old.items ++ bad_instance_line index error) }
{
    write_two_numbers("bad instance ", index, error, into)?;
    into.push(LINE_FEED)?;
    Ok(())
}

/// Appends the line of a script's fault.
fn write_script_line(line: u64, into: &mut Vec<u8>) -> Result<(), AllocError>
    ensures { OnOk result (into.new.items ≡ into.old.items ++ bad_script_line line) }
{
    write_numbered("bad script ", line, into)?;
    into.push(LINE_FEED)?;
    Ok(())
}

/// Why a script is not played on documents.
pub(crate) fn of_run(refusal: RunRefusal) -> Refusal<'static>
    ensures { (script : List ℕ) (docs : List Doc)
        → HasRunRefusalCause script docs refusal → HasRunCause script docs result }
{
    match refusal {
        RunRefusal::BadDocument {
            document,
            line,
            kind,
        } => Refusal::BadDocument(document, line, kind),
        RunRefusal::BadInstance { index, error } => Refusal::BadInstance(index, error),
        RunRefusal::UnplayedDocument => Refusal::NotBuilt(Unbuilt::Document),
        RunRefusal::BadScript { line } => Refusal::BadScript(line),
        RunRefusal::UnplayedScript => Refusal::NotBuilt(Unbuilt::Script),
        RunRefusal::JournalFull { text } => Refusal::JournalFull(text),
        RunRefusal::Memory => Refusal::OutOfMemory,
    }
}

/// Why a command is not done whose documents are refused.
pub(crate) fn of_set(refusal: &SetRefusal) -> Refusal<'static>
    ensures { (docs : List Doc) → HasSetRefusalCause docs refusal.now → HasSetCause docs result }
{
    match refusal {
        SetRefusal::BadDocument {
            document,
            line,
            kind,
        } => Refusal::BadDocument(*document, *line, *kind),
        SetRefusal::BadInstance { index, error } => Refusal::BadInstance(*index, *error),
        SetRefusal::Memory => Refusal::OutOfMemory,
    }
}

impl Refusal<'_> {
    /// The status with which the program ends.
    pub(crate) fn status(&self) -> u8
        ensures { result ≡ status_of self.now }
    {
        match self {
            Refusal::Usage => USAGE,
            Refusal::FileFault(_) => FILE_FAULT,
            Refusal::FileTooLarge(_) => FILE_TOO_LARGE,
            Refusal::BadDocument(_, _, _) | Refusal::BadInstance(_, _) => BAD_DOCUMENT,
            Refusal::BadScript(_) => BAD_SCRIPT,
            Refusal::NotBuilt(_) => NOT_BUILT,
            Refusal::JournalFull(_) => JOURNAL_FULL,
            Refusal::OutOfMemory => OUT_OF_MEMORY,
        }
    }

    /// Appends the line that is printed last.
    fn write(&self, into: &mut Vec<u8>) -> Result<(), AllocError>
        ensures { OnOk result (into.new.items ≡ into.old.items ++ line_of self.now) }
    {
        match self {
            Refusal::Usage => write_line("usage", "", into),
            Refusal::FileFault(name) => write_line("file ", name, into),
            Refusal::FileTooLarge(name) => write_line("too large ", name, into),
            Refusal::BadDocument(document, line, kind) => {
                write_document_line(*document, *line, *kind, into)
            }
            Refusal::BadInstance(index, error) => write_instance_line(*index, *error, into),
            Refusal::BadScript(line) => write_script_line(*line, into),
            Refusal::NotBuilt(what) => write_line("not built ", unbuilt_name(*what), into),
            Refusal::JournalFull(_) => write_line("journal full", "", into),
            Refusal::OutOfMemory => write_line("memory", "", into),
        }
    }

    /// What stands before the line: the journal, where it is full.
    fn before_line(self, alloc: Global) -> Vec<u8>
        ensures { result.items ≡ text_before self.entry }
    {
        match self {
            Refusal::JournalFull(text) => text,
            _ => Vec::new(alloc),
        }
    }

    /// What is printed: the line, and before it the journal, where it is full.
    pub(crate) fn text(self, alloc: Global) -> Result<Vec<u8>, AllocError>
        ensures { IfOk result (λ text. text.items ≡ text_of self.entry) }
    {
        let mut line = Vec::new(alloc);
        self.write(&mut line)?;
        let mut text = self.before_line(alloc);
        text.extend_from_slice(&line)?;
        Ok(text)
    }
}
