//! Runs of the agent on files in memory. An answer is the status, how many calls of the files and of the output failed,
//! and what was written.

use crate::stand_ins::CommandLine;
use crate::stored_files::StoredFiles;
use crate::texts::{first_number, first_word, separate, show_quoted, text_of};
use agent_bytes::{MemFiles, MemSink, RealFiles};
use agent_run::{agent, command_words};
use shipped_documents::DMI;
use std::alloc::{AllocError, Global};

/// Room in a sink for all that a row writes.
const ROOM: usize = 16_384;

/// Room in a sink for a journal that is full.
const JOURNAL_ROOM: usize = 67_108_864;

/// The most octets that a sink with faults takes in a call.
const TURN: usize = 100;

/// The words of a run of the files `script` and `document`.
const WORDS: &str = "run script document";

/// The words of a check of the file `document`.
const CHECK: &str = "check document";

/// The words of a line.
fn words_of(alloc: Global, line: &str) -> Result<Vec<String>, AllocError> {
    let mut words = Vec::new(alloc);
    for word in line.split_whitespace() {
        words.push(String::from_str(alloc, word)?)?;
    }
    Ok(words)
}

/// Appends the status, the counts of faults and what was written.
fn show_end(
    status: u8,
    file_faults: u64,
    out: &MemSink,
    answer: &mut String,
) -> Result<(), AllocError> {
    let out_faults = out.faults();
    write!(answer, "{status} {file_faults} {out_faults} ")?;
    show_quoted(out.written(), answer)
}

/// Appends what a run with these words on files in memory comes to.
fn show_words_run(
    rt: &HostRuntime,
    words: &[String],
    files: &mut MemFiles,
    out: &mut MemSink,
    answer: &mut String,
) -> Result<(), AllocError> {
    let status = agent(rt, words, files, out);
    show_end(status, files.faults(), out, answer)
}

/// Appends what a run with the words of a line on files in memory comes to.
fn show_memory_run(
    rt: &HostRuntime,
    line: &str,
    files: &mut MemFiles,
    out: &mut MemSink,
    answer: &mut String,
) -> Result<(), AllocError> {
    let words = words_of(rt.alloc(), line)?;
    show_words_run(rt, &words, files, out, answer)
}

/// `command NAME WORD..`: a run on the table's files with a command line, of which the first word is the program's
/// name.
pub(crate) fn show_command(
    rt: &HostRuntime,
    files: &StoredFiles,
    line: &str,
    answer: &mut String,
) -> Result<(), AllocError> {
    let alloc = rt.alloc();
    let words = command_words(&(CommandLine { line }, alloc))?;
    let mut files = files.in_memory(alloc, Vec::new(alloc))?;
    let mut out = MemSink::new(alloc, ROOM, Vec::new(alloc))?;
    show_words_run(rt, &words, &mut files, &mut out, answer)
}

/// `agent WORD..`: a run on the table's files.
pub(crate) fn show_run(
    rt: &HostRuntime,
    files: &StoredFiles,
    line: &str,
    answer: &mut String,
) -> Result<(), AllocError> {
    let alloc = rt.alloc();
    let mut files = files.in_memory(alloc, Vec::new(alloc))?;
    let mut out = MemSink::new(alloc, ROOM, Vec::new(alloc))?;
    show_memory_run(rt, line, &mut files, &mut out, answer)
}

/// Adds a document of this text, which is named by its number, to the files and to the words.
fn add_document(
    alloc: Global,
    stored: &StoredFiles,
    text: &str,
    words: &mut Vec<String>,
    files: &mut MemFiles,
) -> Result<(), AllocError> {
    let number = words.len();
    let text = stored.whole_text(alloc, text)?;
    let mut name = String::new(alloc);
    write!(name, "{number}")?;
    files.add(alloc, name.as_str(), text.as_bytes())?;
    words.push(name)?;
    Ok(())
}

/// `documents COMMAND TEXT%TEXT..`: a run of a command on documents of these texts, which are named 1, 2 and so on. A
/// word `$NAME` of a text stands for the stored file of this name.
pub(crate) fn show_documents_run(
    rt: &HostRuntime,
    stored: &StoredFiles,
    row: &str,
    answer: &mut String,
) -> Result<(), AllocError> {
    let alloc = rt.alloc();
    let (command, texts) = first_word(row);
    let mut words = words_of(alloc, command)?;
    let mut files = MemFiles::new(alloc, Vec::new(alloc));
    for text in texts.split('%') {
        add_document(alloc, stored, text, &mut words, &mut files)?;
    }
    let mut out = MemSink::new(alloc, ROOM, Vec::new(alloc))?;
    show_words_run(rt, &words, &mut files, &mut out, answer)
}

/// `cut TEXT`: the words of a text, which have one blank between them, stand in a line each. The answer has what `check`
/// writes of the first line alone, of the first two, and so on.
pub(crate) fn show_cuts(
    rt: &HostRuntime,
    stored: &StoredFiles,
    text: &str,
    answer: &mut String,
) -> Result<(), AllocError> {
    let alloc = rt.alloc();
    let text = stored.whole_text(alloc, text)?;
    let mut lines = String::new(alloc);
    for word in text.as_str().split(' ') {
        lines.push_str(word)?;
        lines.push('\n')?;
        show_check(rt, lines.as_str(), answer)?;
    }
    Ok(())
}

/// Appends what `check` writes of one document.
fn show_check(rt: &HostRuntime, text: &str, answer: &mut String) -> Result<(), AllocError> {
    let alloc = rt.alloc();
    let words = words_of(alloc, CHECK)?;
    let mut files = MemFiles::new(alloc, Vec::new(alloc));
    files.add(alloc, "document", text.as_bytes())?;
    let mut out = MemSink::new(alloc, ROOM, Vec::new(alloc))?;
    agent(rt, &words, &mut files, &mut out);
    separate(answer)?;
    show_quoted(out.written(), answer)
}

/// `shipped TEXT`: whether this is the text of the document that is shipped.
pub(crate) fn show_shipped(
    alloc: Global,
    text: &str,
    answer: &mut String,
) -> Result<(), AllocError> {
    let text = text_of(alloc, text)?;
    if text.as_str() == DMI {
        answer.push_str("the text of DMI")
    } else {
        answer.push_str("another text")
    }
}

/// Appends how many octets stand before the last ones of a text, of which there are so many, and these.
fn show_last(text: &[u8], count: u64, answer: &mut String) -> Result<(), AllocError> {
    let before = text.len().saturating_sub(count as usize);
    write!(answer, "{before} ")?;
    show_quoted(&text[before..], answer)
}

/// `ends COUNT WORD..`: a run on the table's files, of what is written the last octets alone.
pub(crate) fn show_run_end(
    rt: &HostRuntime,
    files: &StoredFiles,
    row: &str,
    answer: &mut String,
) -> Result<(), AllocError> {
    let alloc = rt.alloc();
    let (count, line) = first_number(row);
    let words = words_of(alloc, line)?;
    let mut files = files.in_memory(alloc, Vec::new(alloc))?;
    let mut out = MemSink::new(alloc, JOURNAL_ROOM, Vec::new(alloc))?;
    let status = agent(rt, &words, &mut files, &mut out);
    let (file_faults, out_faults) = (files.faults(), out.faults());
    write!(answer, "{status} {file_faults} {out_faults} ")?;
    show_last(out.written(), count, answer)
}

/// `change NAME OLD→NEW`: a run of the files `script` and `document` with a piece of one of them replaced.
pub(crate) fn show_changed_run(
    rt: &HostRuntime,
    files: &StoredFiles,
    row: &str,
    answer: &mut String,
) -> Result<(), AllocError> {
    let alloc = rt.alloc();
    let (name, change) = first_word(row);
    let change = text_of(alloc, change)?;
    let (old, new) = match change.as_str().split_once('→') {
        Some(parts) => parts,
        None => return answer.push_str("no change"),
    };
    if files.text(name).find(old).is_none() {
        return answer.push_str("no such piece");
    }
    let mut files = files.with_change(alloc, name, old, new)?;
    let mut out = MemSink::new(alloc, ROOM, Vec::new(alloc))?;
    show_memory_run(rt, WORDS, &mut files, &mut out, answer)
}

/// `fails READ WRITE WORD..`: a run on the table's files of which the read and the write with these numbers fail, the
/// first being 0. The output takes at most 100 octets in a call.
pub(crate) fn show_run_with_faults(
    rt: &HostRuntime,
    files: &StoredFiles,
    row: &str,
    answer: &mut String,
) -> Result<(), AllocError> {
    let alloc = rt.alloc();
    let (read, row) = first_number(row);
    let (write, line) = first_number(row);
    let mut files = files.in_memory(alloc, vec![in alloc; read]?)?;
    let mut out = MemSink::new(alloc, ROOM, vec![in alloc; write]?)?.in_turns(TURN);
    show_memory_run(rt, line, &mut files, &mut out, answer)
}

/// `examples WORD..`: a run on files of the system, named from the folder in which the program runs.
pub(crate) fn show_real_run(
    rt: &HostRuntime,
    line: &str,
    answer: &mut String,
) -> Result<(), AllocError> {
    let alloc = rt.alloc();
    let words = words_of(alloc, line)?;
    let mut files = RealFiles::new(rt);
    let mut out = MemSink::new(alloc, ROOM, Vec::new(alloc))?;
    let status = agent(rt, &words, &mut files, &mut out);
    show_end(status, files.faults(), &out, answer)
}
