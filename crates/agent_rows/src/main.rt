//! Answers rows of tables: a call and its arguments in a line of standard input, its answer in a line of standard
//! output.
#![tactic(auto)]

mod devices;
mod rows;
mod runs;
mod stand_ins;
mod stored_files;
mod texts;

use agent_bytes::{StdoutSink, write_all};
use rows::answer_row;
use stand_ins::SlowOutput;
use std::io;
use std::io::{BufRead, BufReader};
use stored_files::StoredFiles;

fn main(rt: HostRuntime) -> io::Result<()> {
    let alloc = rt.alloc();
    let mut files = StoredFiles::new(alloc);
    for line in BufReader::new(alloc, rt.reader())?.lines(alloc) {
        let row = line?;
        let mut answer = String::new(alloc);
        answer_row(&rt, &mut files, row.as_str(), &mut answer)?;
        answer.push('\n')?;
        put(&rt, answer.as_str())?;
    }
    Ok(())
}

/// The most octets of an answer that standard output takes at once.
const MOST: usize = 7;

/// Writes an answer to standard output, a few octets at a time.
fn put(rt: &HostRuntime, answer: &str) -> io::Result<()> {
    let slow = SlowOutput { rt, most: MOST };
    let mut out = StdoutSink::new(&slow);
    match write_all(&mut out, answer.as_bytes()) {
        Ok(()) => Ok(()),
        Err(_) => Err(io::ErrorKind::WriteZero.into()),
    }
}
