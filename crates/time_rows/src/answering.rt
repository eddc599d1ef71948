//! From a line to its answer.

use std::alloc::{AllocError, Global};
use time_text::laws::read_written;
use time_text::{BadTime, read_time, write_time};

/// What is printed for the text of a moment.
fn written(alloc: Global, seconds: u64) -> Result<String, AllocError> {
    let text = write_time(seconds);
    match str::from_utf8(text.as_slice()) {
        Ok(text) => String::from_str(alloc, text),
        Err(_) => String::from_str(alloc, "no text"),
    }
}

/// What is printed for the moment that was read.
fn shown(alloc: Global, answer: Result<u64, BadTime>) -> Result<String, AllocError> {
    match answer {
        Ok(seconds) => format!(in alloc; "{seconds}"),
        Err(BadTime) => String::from_str(alloc, "BadTime"),
    }
}

/// The answer to a row: a call with a number of seconds, or `read_time` with the octets of a text, in hexadecimal
/// digits behind `hex:`.
fn answer_row(alloc: Global, row: &str) -> Result<String, AllocError> {
    let (call, argument) = row.split_once(' ').unwrap_or((row, ""));
    if call == "read_time" {
        return match argument.strip_prefix("hex:") {
            Some(digits) => match hex::decode(alloc, digits.as_bytes()) {
                Ok(octets) => shown(alloc, read_time(&octets)),
                Err(_) => String::from_str(alloc, "no octets"),
            },
            None => shown(alloc, read_time(argument.as_bytes())),
        };
    }
    match (call, argument.parse::<u64>()) {
        ("write_time", Ok(seconds)) => written(alloc, seconds),
        ("read_written", Ok(seconds)) => shown(alloc, read_written(seconds)),
        _ => String::from_str(alloc, "no such call"),
    }
}

/// What is printed for a line.
pub fn answer_line(alloc: Global, line: &str) -> Result<String, AllocError> {
    if line.is_empty() || line.starts_with('#') {
        String::from_str(alloc, line)
    } else {
        answer_row(alloc, line)
    }
}
