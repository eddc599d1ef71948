//! The command `run`: a script played on the objects of documents, or why it isn't (docs/OPERATING.md, Commands).

ghost use Rattle.std.specs.Prelude.{◌≡◌, ◌≤◌, length, map, string_bytes, IfErr, IfOk, OnOk};
ghost use Rattle.agent_run.specs.Refusing.{HasCauseBy, IsTextBy, KeepsCount};
ghost use Rattle.command_line.specs.WordForms.Command.{Run};

use crate::file_reading::{read_documents, read_file};
use crate::refusal::{Refusal, of_run};
use agent_bytes::Files;
use run_command::run_text;
use set_commands::Doc;
use std::alloc::Global;

/// The most bytes of a script.
const MOST_SCRIPT: u64 = 16_777_216;

/// What `run` prints.
pub(crate) fn run<'a, F: Files>(
    alloc: Global,
    script: &'a str,
    names: &'a [String],
    files: &mut F,
) -> Result<Vec<u8>, Refusal<'a>>
    requires few { length names.now ≤ 64 }
    ensures text { IfOk result (λ text.
        IsTextBy (F.files files.old) (Run script.now (map string_bytes names.now)) text.items) }
    ensures same { F.files files.new ≡ F.files files.old }
    ensures quiet { OnOk result (F.faults files.new ≡ F.faults files.old) }
    ensures kept { IfErr result (KeepsCount (F.faults files.old) (F.faults files.new)) }
    ensures cause { IfErr result (HasCauseBy (F.files files.old) (Run script.now (map string_bytes names.now))
        (F.faults files.old) (F.faults files.new)) }
{
    let text = read_file(alloc, files, script, MOST_SCRIPT)?;
    let documents = read_documents(alloc, files, names)?;
    match run_text(alloc, text.as_slice(), documents.as_slice()) {
        Ok(text) => Ok(text),
        Err(refusal) => Err(of_run(refusal)),
    }
}
