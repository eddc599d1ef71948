//! Answers rows: each line of standard input is a reply, an event report or a reject in words, and its frame is
//! printed in a line.
//! Lines that are empty or begin with `#` are printed as they are.
#![tactic(auto)]

mod contents_rows;
mod error_rows;
mod frame_rows;
mod names;
mod parts;

use row_arguments::RowFault;
use std::alloc::{AllocError, Global};
use std::io;

/// Appends the answer to a call.
fn answer_call(alloc: Global, call: &str, text: &str, out: &mut String) -> Result<(), RowFault> {
    match call {
        "single" => frame_rows::single_row(alloc, text, out),
        "linked" => frame_rows::linked_row(alloc, text, out),
        "empty" => frame_rows::empty_row(alloc, text, out),
        "error" => frame_rows::error_row(alloc, text, out),
        "octets" => frame_rows::octets_row(alloc, text, out),
        "event" => frame_rows::event_row(alloc, text, out),
        "reject" => frame_rows::reject_row(alloc, text, out),
        _ => Err(RowFault::Call),
    }
}

/// What is printed for a line.
fn answer_line(alloc: Global, line: &str) -> Result<String, AllocError> {
    let mut out = String::new(alloc);
    if line.is_empty() || line.starts_with('#') {
        out.push_str(line)?;
        return Ok(out);
    }
    let (call, arguments) = line.split_once(' ').unwrap_or((line, ""));
    match answer_call(alloc, call, arguments, &mut out) {
        Ok(()) => Ok(out),
        Err(fault) => {
            out.clear();
            out.push_str(fault.text())?;
            Ok(out)
        }
    }
}

fn main(rt: HostRuntime) -> io::Result<()> {
    for line in rt.lines(rt.alloc()) {
        let answer = answer_line(rt.alloc(), line?.as_str())?;
        println!(rt; "{}", answer.as_str().trim_end())?;
    }
    Ok(())
}
