//! The top call: the words of a command line, the files that they name, and what is written (docs/OPERATING.md,
//! Commands).

ghost use Rattle.std.specs.Prelude.{◌≡◌, ◌≢◌, ◌⊎◌, ◌≤◌, [], ◌∷◌, Contains, length, map, string_bytes, IfErr, IfOk};
ghost use Rattle.std.specs.Prelude.{IsSome, OnOk};
ghost use Rattle.agent_bytes.specs.Faults.{Rose};
ghost use Rattle.agent_bytes.specs.Told.{GainsPart, gained};
ghost use Rattle.agent_run.specs.Answers.{CanBeDone, EndsByBadDocument, EndsByBadScript, EndsByFileFault};
ghost use Rattle.agent_run.specs.Answers.{EndsByFileTooLarge, EndsByJournalFull, EndsByNotBuilt, EndsByUsage};
ghost use Rattle.agent_run.specs.Answers.{EndsByWriteFault, IsPut, IsTextOf, Prints};
ghost use Rattle.agent_run.specs.Refusing.{HasCause, HasCauseBy, IsTextBy, KeepsCount, memory_line, status_of, text_of};
ghost use Rattle.agent_run.specs.Statuses as status;
ghost use Rattle.command_line.specs.WordForms.Command.{Check, Report, Run};

use crate::file_reading::read_documents;
use crate::playing::run;
use crate::refusal::{DONE, OUT_OF_MEMORY, Refusal, Unbuilt, WRITE_FAULT, of_set};
use agent_bytes::{Files, Sink, write_all};
use command_line::{Command, read_words};
use set_commands::{check_text, schema_text};
use std::alloc::Global;

/// The line printed where there is no memory for another one.
const MEMORY_LINE: &[u8] = b"memory\n";

/// What `check` prints.
fn check<'a, F: Files>(
    alloc: Global,
    names: &'a [String],
    files: &mut F,
) -> Result<Vec<u8>, Refusal<'a>>
    requires few { length names.now ≤ 64 }
    ensures text { IfOk result (λ text.
        IsTextBy (F.files files.old) (Check (map string_bytes names.now)) text.items) }
    ensures same { F.files files.new ≡ F.files files.old }
    ensures quiet { OnOk result (F.faults files.new ≡ F.faults files.old) }
    ensures kept { IfErr result (KeepsCount (F.faults files.old) (F.faults files.new)) }
    ensures cause { IfErr result (HasCauseBy (F.files files.old) (Check (map string_bytes names.now))
        (F.faults files.old) (F.faults files.new)) }
{
    let documents = read_documents(alloc, files, names)?;
    match check_text(alloc, documents.as_slice()) {
        Ok(text) => Ok(text),
        Err(refusal) => Err(of_set(&refusal)),
    }
}

/// What `report` prints.
fn report<'a, F: Files>(
    alloc: Global,
    names: &'a [String],
    files: &mut F,
) -> Result<Vec<u8>, Refusal<'a>>
    requires few { length names.now ≤ 64 }
    ensures text { IfOk result (λ text.
        IsTextBy (F.files files.old) (Report (map string_bytes names.now)) text.items) }
    ensures same { F.files files.new ≡ F.files files.old }
    ensures quiet { OnOk result (F.faults files.new ≡ F.faults files.old) }
    ensures kept { IfErr result (KeepsCount (F.faults files.old) (F.faults files.new)) }
    ensures cause { IfErr result (HasCauseBy (F.files files.old) (Report (map string_bytes names.now))
        (F.faults files.old) (F.faults files.new)) }
{
    let documents = read_documents(alloc, files, names)?;
    match schema_text(alloc, documents.as_slice()) {
        Ok(text) => Ok(text),
        Err(refusal) => Err(of_set(&refusal)),
    }
}

/// What a command prints where it is done.
fn prepare<'a, F: Files>(
    alloc: Global,
    words: &'a [String],
    files: &mut F,
) -> Result<Vec<u8>, Refusal<'a>>
    ensures text { IfOk result (λ text. IsTextOf (F.files files.old) (map string_bytes words.now) text.items) }
    ensures same { F.files files.new ≡ F.files files.old }
    ensures quiet { OnOk result (F.faults files.new ≡ F.faults files.old) }
    ensures kept { IfErr result (KeepsCount (F.faults files.old) (F.faults files.new)) }
    ensures cause { IfErr result
        (HasCause (F.files files.old) (map string_bytes words.now) (F.faults files.old) (F.faults files.new)) }
{
    match read_words(words) {
        Some(Command::Check(names)) => check(alloc, names, files),
        Some(Command::Report(names)) => report(alloc, names, files),
        Some(Command::Run(script, names)) => run(alloc, script, names, files),
        Some(Command::Unbuilt) => Err(Refusal::NotBuilt(Unbuilt::Command)),
        None => Err(Refusal::Usage),
    }
}

/// Writes the text of a command.
fn put_text<O: Sink>(out: &mut O, text: &[u8]) -> u8
    ensures status { result ≡ status.done ⊎ result ≡ status.write_fault }
    ensures written { result ≡ status.done → O.contents out.new ≡ gained (O.contents out.old) text.now }
    ensures fault { result ≡ status.write_fault → Rose (O.faults out.old) (O.faults out.new) }
    ensures part { result ≡ status.write_fault → GainsPart (O.contents out.old) (O.contents out.new) text.now }
{
    match write_all(out, text) {
        Ok(()) => DONE,
        Err(_) => WRITE_FAULT,
    }
}

/// Writes a line. A write that fails is told by the output's count alone.
fn put_line<O: Sink>(out: &mut O, line: &[u8])
    ensures { IsPut (O.faults out.old) (O.faults out.new) (O.contents out.old) (O.contents out.new) line.now }
{
    match write_all(out, line) {
        Ok(()) => {}
        Err(_) => {}
    }
}

/// Writes the line of a refusal, behind the journal where it is full, and answers its status, also where a write fails.
/// Where there is no memory for the line, both are those of want of memory.
fn refuse<O: Sink>(alloc: Global, refusal: Refusal<'_>, out: &mut O) -> u8
    ensures status { result ≡ status_of refusal.entry ⊎ result ≡ status.out_of_memory }
    ensures line { result ≢ status.out_of_memory
        → IsPut (O.faults out.old) (O.faults out.new) (O.contents out.old) (O.contents out.new)
        (text_of refusal.entry) }
    ensures memory { result ≡ status.out_of_memory
        → IsPut (O.faults out.old) (O.faults out.new) (O.contents out.old) (O.contents out.new) memory_line }
{
    let status = refusal.status();
    match refusal.text(alloc) {
        Ok(text) => {
            put_line(out, &text);
            status
        }
        Err(_) => {
            put_line(out, MEMORY_LINE);
            OUT_OF_MEMORY
        }
    }
}

/// Performs a command and answers the status with which the program ends.
///
/// The words are `check DOC..`, `report DOC..` or `run SCRIPT DOC..`, with 1 to 64 documents. The files are read in
/// this order. `check` compiles the documents, opens their objects where a section INSTANCES stands, and writes how
/// many documents, templates of each kind, types and objects there are; `report` writes the text of the schema. `run`
/// plays the script on the objects of the documents, and writes the journal, a line of two dashes, a line `out A HEX`
/// for each association and a line `objects N`.
///
/// With another status than 0 and 6 one line is written that says why. Words in no form end with 2, a call of the files
/// that fails with 3, a file past its limit with 10, documents with a fault, or with an instance that can't be opened,
/// with 4, a script with a bad line with 5, a command, documents or a script that are not built with 12, a script whose
/// journal is full with 9, and want of memory with 8. The line of 3 and 10 names the first file in the order of the
/// words that has either cause; that of 9 stands behind the part of the journal before the first entry without room. A
/// failed write ends a command that would else end with 0 with 6, and changes no other status.
pub fn agent<R: AllocGlobal, F: Files, O: Sink>(
    rt: &R,
    words: &[String],
    files: &mut F,
    out: &mut O,
) -> u8
    // What was written is the text of the command: what the named script comes to on the named documents, its journal
    // and what the agent placed; the counts of the named documents; or the text of a schema.
    ensures printed { result ≡ status.done
        → Prints (F.files files.old) (map string_bytes words.now) (O.contents out.old) (O.contents out.new) }

    // Each other status but that of a failed write has its cause, and its line was written, or a part where a write
    // failed.
    ensures usage { result ≡ status.usage
        → EndsByUsage (map string_bytes words.now)
        (O.faults out.old) (O.faults out.new) (O.contents out.old) (O.contents out.new) }
    ensures file_fault { result ≡ status.file_fault
        → EndsByFileFault (F.files files.old) (map string_bytes words.now) (F.faults files.old) (F.faults files.new)
        (O.faults out.old) (O.faults out.new) (O.contents out.old) (O.contents out.new) }
    ensures too_large { result ≡ status.file_too_large
        → EndsByFileTooLarge (F.files files.old) (map string_bytes words.now)
        (O.faults out.old) (O.faults out.new) (O.contents out.old) (O.contents out.new) }
    ensures bad_document { result ≡ status.bad_document
        → EndsByBadDocument (F.files files.old) (map string_bytes words.now)
        (O.faults out.old) (O.faults out.new) (O.contents out.old) (O.contents out.new) }
    ensures bad_script { result ≡ status.bad_script
        → EndsByBadScript (F.files files.old) (map string_bytes words.now)
        (O.faults out.old) (O.faults out.new) (O.contents out.old) (O.contents out.new) }
    ensures not_built { result ≡ status.not_built
        → EndsByNotBuilt (F.files files.old) (map string_bytes words.now)
        (O.faults out.old) (O.faults out.new) (O.contents out.old) (O.contents out.new) }
    ensures journal_full { result ≡ status.journal_full
        → EndsByJournalFull (F.files files.old) (map string_bytes words.now)
        (O.faults out.old) (O.faults out.new) (O.contents out.old) (O.contents out.new) }
    ensures memory { result ≡ status.out_of_memory
        → IsPut (O.faults out.old) (O.faults out.new) (O.contents out.old) (O.contents out.new) memory_line }

    // A write failed where the command was done, and a part of its text is there.
    ensures write_fault { result ≡ status.write_fault
        → EndsByWriteFault (F.files files.old) (map string_bytes words.now)
        (O.faults out.old) (O.faults out.new) (O.contents out.old) (O.contents out.new) }
    ensures statuses { Contains status.all_statuses result }

    // No file was changed, and with another status than that of a failed call none failed, want of memory aside.
    ensures same { F.files files.new ≡ F.files files.old }
    ensures quiet { result ≢ status.file_fault → result ≢ status.out_of_memory
        → F.faults files.new ≡ F.faults files.old }

    // Where the words are those of a command that comes to its end with its files, and no call failed, everything was
    // written, or there was no memory: the documents are accepted, their instances can be opened, and the script is
    // played to its end.
    ensures complete { CanBeDone (F.files files.old) (map string_bytes words.now)
        → (Rose (F.faults files.old) (F.faults files.new) → ⊥) → (Rose (O.faults out.old) (O.faults out.new) → ⊥)
        → result ≡ status.done ⊎ result ≡ status.out_of_memory }
{
    let alloc = rt.alloc();
    match prepare(alloc, words, files) {
        Ok(text) => put_text(out, &text),
        Err(refusal) => refuse(alloc, refusal, out),
    }
}
