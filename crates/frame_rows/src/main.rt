//! Answers rows: each line of standard input is a call with its arguments, and what it answers is printed in a line.
//! Lines that are empty or begin with `#` are printed as they are.
#![tactic(auto)]

mod apdu_rows;
mod framer_rows;

use row_arguments::RowFault;
use std::alloc::{AllocError, Global};
use std::io;

/// Appends the answer to a call.
fn answer_call(alloc: Global, call: &str, text: &str, out: &mut String) -> Result<(), RowFault> {
    match call {
        "read_apdu" => apdu_rows::read_apdu_row(alloc, text, out),
        "write_apdu" => apdu_rows::write_apdu_row(alloc, text, out),
        "pieces" => framer_rows::pieces_row(alloc, text, out),
        "sizes" => framer_rows::sizes_row(alloc, text, out),
        _ => Err(RowFault::Call),
    }
}

/// What is printed for a line.
fn answer_line(alloc: Global, line: &str) -> Result<String, AllocError> {
    let mut out = String::new(alloc);
    if line.is_empty() || line.starts_with('#') {
        out.push_str(line)?;
        return Ok(out);
    }
    let (call, arguments) = line.split_once(' ').unwrap_or((line, ""));
    match answer_call(alloc, call, arguments, &mut out) {
        Ok(()) => Ok(out),
        Err(fault) => {
            out.clear();
            out.push_str(fault.text())?;
            Ok(out)
        }
    }
}

fn main(rt: HostRuntime) -> io::Result<()> {
    for line in rt.lines(rt.alloc()) {
        let answer = answer_line(rt.alloc(), line?.as_str())?;
        println!(rt; "{}", answer.as_str().trim_end())?;
    }
    Ok(())
}
