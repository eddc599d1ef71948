//! The calls that a row may name.

use crate::devices::{
    show_memory_files, show_output, show_read_up_to, show_real_file, show_sink, show_source,
};
use crate::runs::{
    show_changed_run, show_command, show_cuts, show_documents_run, show_real_run, show_run,
    show_run_end, show_run_with_faults, show_shipped,
};
use crate::stored_files::StoredFiles;
use crate::texts::first_word;
use std::alloc::AllocError;

/// Appends the answer of a row. A comment, which begins with `--`, and an empty row are answered by themselves.
pub(crate) fn answer_row(
    rt: &HostRuntime,
    files: &mut StoredFiles,
    row: &str,
    answer: &mut String,
) -> Result<(), AllocError> {
    let (call, rest) = first_word(row);
    match call {
        "file" => files.store(rt.alloc(), rest),
        "each" => files.store_each(rest),
        "load" => files.load(rt, rest),
        "double" => files.double(rt.alloc(), rest),
        "clear" => {
            files.clear();
            Ok(())
        }
        "" | "--" => answer.push_str(row),
        _ => answer_call(rt, files, call, rest, answer),
    }
}

/// Appends the answer of a call.
fn answer_call(
    rt: &HostRuntime,
    files: &StoredFiles,
    call: &str,
    rest: &str,
    answer: &mut String,
) -> Result<(), AllocError> {
    match call {
        "agent" => show_run(rt, files, rest, answer),
        "ends" => show_run_end(rt, files, rest, answer),
        "change" => show_changed_run(rt, files, rest, answer),
        "fails" => show_run_with_faults(rt, files, rest, answer),
        "command" => show_command(rt, files, rest, answer),
        "documents" => show_documents_run(rt, files, rest, answer),
        "cut" => show_cuts(rt, files, rest, answer),
        "examples" => show_real_run(rt, rest, answer),
        "shipped" => show_shipped(rt.alloc(), rest, answer),
        _ => answer_device(rt, files, call, rest, answer),
    }
}

/// Appends the answer of a call of `agent_bytes`.
fn answer_device(
    rt: &HostRuntime,
    files: &StoredFiles,
    call: &str,
    rest: &str,
    answer: &mut String,
) -> Result<(), AllocError> {
    let alloc = rt.alloc();
    match call {
        "output" => show_output(rt, rest, answer),
        "sink" => show_sink(alloc, rest, answer),
        "source" => show_source(alloc, rest, answer),
        "read_up_to" => show_read_up_to(alloc, rest, answer),
        "files" => show_memory_files(alloc, files, rest, answer),
        "real" => show_real_file(rt, rest, answer),
        _ => answer.push_str("no such call"),
    }
}
