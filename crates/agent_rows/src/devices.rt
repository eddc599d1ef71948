//! Calls of the outside in memory and over the runtime.

use crate::stand_ins::SlowOutput;
use crate::stored_files::StoredFiles;
use crate::texts::{first_number, first_word, number_of, separate, show_quoted};
use agent_bytes::{
    FileRefusal, Files, MemFiles, MemSink, MemSource, RealFiles, Sink, Source, StdoutSink,
    read_up_to, write_all,
};
use std::alloc::{AllocError, Global};
use std::fs;

/// `sink ROOM FAILING TURN TEXT`: a text is written to a sink with this room, of which the call with this number fails
/// and each takes so many octets at most. The answer has what was written, how many calls there were and how many
/// failed.
pub(crate) fn show_sink(alloc: Global, row: &str, answer: &mut String) -> Result<(), AllocError> {
    let (room, row) = first_number(row);
    let (failing, row) = first_number(row);
    let (turn, text) = first_number(row);
    let failing = vec![in alloc; failing]?;
    let turn = if turn == 0 { 1 } else { turn as usize };
    let mut sink = MemSink::new(alloc, room as usize, failing)?.in_turns(turn);
    let word = match write_all(&mut sink, text.as_bytes()) {
        Ok(()) => "written",
        Err(_) => "failed",
    };
    show_written(word, &sink, answer)
}

fn show_written(word: &str, sink: &MemSink, answer: &mut String) -> Result<(), AllocError> {
    let calls = sink.calls();
    let faults = sink.faults();
    write!(answer, "{word}, {calls} calls, {faults} faults, ")?;
    show_quoted(sink.written(), answer)
}

/// `output MOST TEXT`: a text is written to standard output, of which each write takes so many octets at most. Behind
/// it the answer has how many writes failed.
pub(crate) fn show_output(
    rt: &HostRuntime,
    row: &str,
    answer: &mut String,
) -> Result<(), AllocError> {
    let (most, text) = first_number(row);
    let slow = SlowOutput {
        rt,
        most: most as usize,
    };
    let mut out = StdoutSink::new(&slow);
    let word = match write_all(&mut out, text.as_bytes()) {
        Ok(()) => "written",
        Err(_) => "failed",
    };
    let faults = out.faults();
    write!(answer, "{word}, {faults} faults")?;
    Ok(())
}

/// `source TEXT TURN FAILING SIZE READS`: a source gives a text in turns, of which the call with this number fails,
/// into a slice of this size, so many times. The answer has what each call gave, and what was left then.
pub(crate) fn show_source(alloc: Global, row: &str, answer: &mut String) -> Result<(), AllocError> {
    let (text, row) = first_word(row);
    let (turn, row) = first_number(row);
    let (failing, row) = first_number(row);
    let (size, row) = first_number(row);
    let (reads, _rest) = first_number(row);
    let mut source = source_of(alloc, text, turn, failing)?;
    let mut into = vec![in alloc; 0u8; size as usize]?;
    for _ in 0..reads {
        show_read(&mut source, &mut into, answer)?;
    }
    separate(answer)?;
    let calls = source.calls();
    let faults = source.faults();
    write!(answer, "{calls} calls, {faults} faults")?;
    Ok(())
}

/// A source of a text.
fn source_of(alloc: Global, text: &str, turn: u64, failing: u64) -> Result<MemSource, AllocError> {
    let bytes = text.as_bytes().to_vec(alloc)?;
    let failing = vec![in alloc; failing]?;
    let turn = if turn == 0 { 1 } else { turn as usize };
    Ok(MemSource::new(bytes, failing).in_turns(turn))
}

/// Appends what one call gives, and what is left.
fn show_read(
    source: &mut MemSource,
    into: &mut [u8],
    answer: &mut String,
) -> Result<(), AllocError> {
    separate(answer)?;
    match source.read(into) {
        Ok(count) => {
            write!(answer, "{count} ")?;
            show_quoted(&into[..count], answer)?;
        }
        Err(_) => answer.push_str("failed")?,
    }
    answer.push_str(" of ")?;
    show_quoted(source.left(), answer)
}

/// `read_up_to TEXT TURN FAILING LIMIT..`: a source is read to its end, once for each limit.
pub(crate) fn show_read_up_to(
    alloc: Global,
    row: &str,
    answer: &mut String,
) -> Result<(), AllocError> {
    let (text, row) = first_word(row);
    let (turn, row) = first_number(row);
    let (failing, limits) = first_number(row);
    let mut source = source_of(alloc, text, turn, failing)?;
    for limit in limits.split_whitespace() {
        let whole = read_up_to(&mut source, alloc, number_of(limit));
        separate(answer)?;
        show_file(&whole, answer)?;
    }
    Ok(())
}

/// Appends what a file holds, or why it was not read.
fn show_file(read: &Result<Vec<u8>, FileRefusal>, answer: &mut String) -> Result<(), AllocError> {
    match read {
        Ok(bytes) => {
            answer.push_str("read ")?;
            show_quoted(bytes, answer)
        }
        Err(FileRefusal::Failed) => answer.push_str("failed"),
        Err(FileRefusal::TooLarge) => answer.push_str("too large"),
        Err(FileRefusal::Memory) => Err(AllocError),
    }
}

/// `files FAILING NAME:LIMIT..`: the table's files in memory, of which the call with this number fails, are read by
/// these names up to these limits. The answer has what each call gave, and how many had failed then.
pub(crate) fn show_memory_files(
    alloc: Global,
    files: &StoredFiles,
    row: &str,
    answer: &mut String,
) -> Result<(), AllocError> {
    let (failing, reads) = first_number(row);
    let mut files = files.in_memory(alloc, vec![in alloc; failing]?)?;
    for read in reads.split_whitespace() {
        show_memory_read(alloc, &mut files, read, answer)?;
    }
    separate(answer)?;
    let calls = files.calls();
    write!(answer, "{calls} calls")?;
    Ok(())
}

fn show_memory_read(
    alloc: Global,
    files: &mut MemFiles,
    read: &str,
    answer: &mut String,
) -> Result<(), AllocError> {
    let (name, limit) = read.split_once(':').unwrap_or((read, ""));
    let whole = files.read_file(alloc, name, number_of(limit));
    separate(answer)?;
    let faults = files.faults();
    write!(answer, "{faults} faults, ")?;
    show_file(&whole, answer)
}

/// `real NAME COUNT`: a file of the system with so many octets is read up to this limit, and up to one less; then it is
/// removed and read once more. The answer has how many octets came and why none did, and how many calls had failed.
pub(crate) fn show_real_file(
    rt: &HostRuntime,
    row: &str,
    answer: &mut String,
) -> Result<(), AllocError> {
    let alloc = rt.alloc();
    let (name, row) = first_word(row);
    let (count, _rest) = first_number(row);
    let long = vec![in alloc; b'x'; count as usize]?;
    if fs::write(rt, name, long.as_slice()).is_err() {
        return answer.push_str("not written");
    }
    let mut files = RealFiles::new(rt);
    show_real_read(&mut files, alloc, name, count, answer)?;
    show_real_read(&mut files, alloc, name, count.saturating_sub(1), answer)?;
    if fs::remove_file(rt, name).is_err() {
        return answer.push_str("not removed");
    }
    show_real_read(&mut files, alloc, name, count, answer)
}

fn show_real_read(
    files: &mut RealFiles<'_, HostRuntime>,
    alloc: Global,
    name: &str,
    limit: u64,
    answer: &mut String,
) -> Result<(), AllocError> {
    let read = files.read_file(alloc, name, limit);
    separate(answer)?;
    let faults = files.faults();
    write!(answer, "{faults} faults, ")?;
    match &read {
        Ok(bytes) => {
            let count = bytes.len();
            let is_whole = bytes.iter().all(|octet| *octet == b'x');
            write!(answer, "{count} octets {is_whole}")?;
            Ok(())
        }
        Err(_) => show_file(&read, answer),
    }
}
