//! One connection of TCP, which its two halves and the acceptor that gave it share.
ghost use Rattle.std.specs.Io.{ReadsAtMost, WritesAtMost};

use std::io;
use std::io::{ErrorKind, Read, Write};
use std::net::{Shutdown, TcpStream};
use std::sync::RwLock;

/// A connection with one descriptor, which `close` lets go. Reads and writes of several threads run side by side.
#[derive(Drop)]
pub struct Connection {
    stream: RwLock<Option<TcpStream>>,
}

fn not_open() -> io::Error {
    io::Error::from(ErrorKind::NotConnected)
}

impl Connection {
    /// One that isn't open yet: its reads and writes fail.
    pub fn new() -> Connection {
        Connection {
            stream: RwLock::new(None),
        }
    }

    /// Reads and writes go to `stream` from now on.
    pub fn open(&self, stream: TcpStream) {
        if let Some(mut guard) = self.stream.try_write() {
            *guard = Some(stream);
        }
    }

    /// Waits for bytes of the peer, moves them to the front of `into` and answers how many; 0 at their end. An
    /// interrupted call is tried again. `into` may have changed where it fails.
    pub fn read(&self, into: &mut [u8]) -> io::Result<usize>
        ensures { ReadsAtMost result into.new }
    {
        let Some(guard) = self.stream.try_read() else {
            return Err(not_open());
        };
        match &*guard {
            Some(stream) => read_from(stream, into),
            None => Err(not_open()),
        }
    }

    /// Waits until there is room for some of the bytes, sends them, and answers how many. An interrupted call is tried
    /// again.
    pub fn write(&self, from: &[u8]) -> io::Result<usize>
        ensures { WritesAtMost result from.now }
    {
        let Some(guard) = self.stream.try_read() else {
            return Err(not_open());
        };
        match &*guard {
            Some(stream) => write_to(stream, from),
            None => Err(not_open()),
        }
    }

    /// Ends both directions: a read that waits in another thread comes back, and the peer sees the end.
    pub fn hang_up(&self) {
        let Some(guard) = self.stream.try_read() else {
            return;
        };
        if let Some(stream) = &*guard {
            let _ = stream.shutdown(Shutdown::Both);
        }
    }

    /// Lets the descriptor go, unless a call in another thread uses it still.
    pub fn close(&self) {
        if let Some(mut guard) = self.stream.try_write() {
            *guard = None;
        }
    }
}

fn read_from(stream: &TcpStream, into: &mut [u8]) -> io::Result<usize>
    ensures { ReadsAtMost result into.new }
{
    let mut reader = stream;
    for _ in 0..u64::MAX {
        let answer = reader.read(into);
        if !is_interrupted(&answer) {
            return answer;
        }
    }
    Err(io::Error::from(ErrorKind::Interrupted))
}

fn write_to(stream: &TcpStream, from: &[u8]) -> io::Result<usize>
    ensures { WritesAtMost result from.now }
{
    let mut writer = stream;
    for _ in 0..u64::MAX {
        let answer = writer.write(from);
        if !is_interrupted(&answer) {
            return answer;
        }
    }
    Err(io::Error::from(ErrorKind::Interrupted))
}

fn is_interrupted(answer: &io::Result<usize>) -> bool {
    match answer {
        Err(fault) => fault.kind() == ErrorKind::Interrupted,
        Ok(_) => false,
    }
}
