//! Stand-ins for parts of the system: a command line, and an output that takes a part of each write.

ghost use Rattle.std.specs.Io.{WritesAtMost};

use std::env::{Env, FillError};
use std::fmt::Display;
use std::io;

/// A command line. Its words stand in a row, the program's own name first; `\FF` is a word of the octet 255, which is
/// not UTF-8.
#[derive(Clone, Copy)]
pub(crate) struct CommandLine<'a> {
    /// The row.
    pub line: &'a str,
}

impl Env for CommandLine<'_> {
    fn arg(&self, i: usize, buf: &mut [u8]) -> Result<usize, FillError> {
        match self.line.split_whitespace().nth(i) {
            Some("\\FF") => fill(b"\xFF", buf),
            Some(word) => fill(word.as_bytes(), buf),
            None => Err(FillError::NotPresent),
        }
    }

    fn var(&self, _name: &str, _buf: &mut [u8]) -> Result<usize, FillError> {
        Err(FillError::NotPresent)
    }

    fn var_at(&self, _i: usize, _buf: &mut [u8]) -> Result<usize, FillError> {
        Err(FillError::NotPresent)
    }
}

/// Copies octets to the start of a buffer, and answers how many.
fn fill(octets: &[u8], buf: &mut [u8]) -> Result<usize, FillError>
    ensures { WritesAtMost result buf.new }
{
    if octets.len() > buf.len() {
        return Err(FillError::TooLong);
    }
    buf[..octets.len()].copy_from_slice(octets);
    Ok(octets.len())
}

/// Standard output, of which each write takes at most so many octets.
#[derive(Clone, Copy)]
pub(crate) struct SlowOutput<'a> {
    /// The runtime.
    pub rt: &'a HostRuntime,
    /// The most octets of a write.
    pub most: usize,
}

impl Print for SlowOutput<'_> {
    fn print<D: Display + Drop>(&self, value: D) -> io::Result<()> {
        self.rt.print(value)
    }

    fn println<D: Display + Drop>(&self, value: D) -> io::Result<()> {
        self.rt.println(value)
    }

    fn write_all(&self, bytes: &[u8]) -> io::Result<()> {
        self.rt.write_all(bytes)
    }

    fn write_some(&self, bytes: &[u8]) -> io::Result<usize> {
        let count = bytes.len().min(self.most);
        self.rt.write_some(&bytes[..count])
    }
}
