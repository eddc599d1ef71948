//! What a connection of TCP gives.
ghost use Rattle.std.specs.Prelude.{◌≡◌, None};

use crate::connection::Connection;
use crate::count::counted_up;
use agent_bytes::{Failed, Source};
use std::alloc::Global;
use std::marker::Model;
use std::sync::Arc;

/// The most bytes that one call gives.
const MOST: usize = 8192;

/// The half of a connection that gives the peer's bytes. It tells none.
#[derive(Drop)]
pub struct TcpIn {
    connection: Arc<Connection, Global>,
    faults: u64,
}

impl Model for TcpIn {
    ghost use Rattle.std.specs.Prelude.{ℕ};

    // The count of faults is all that callers see.
    ghost Value = { ℕ };

    ghost view = { λ s. s.faults };
}

impl TcpIn {
    /// The half that reads `connection`, with no fault so far.
    pub fn new(connection: Arc<Connection, Global>) -> TcpIn
        ensures { result ≡ 0 }
    {
        TcpIn {
            connection,
            faults: 0,
        }
    }

    /// How many calls have failed.
    pub fn faults(&self) -> u64
        ensures { result ≡ self.now }
    {
        self.faults
    }
}

impl Source for TcpIn {
    ghost left = { λ _. None };

    ghost faults = { λ count. count };

    // A failed read of the system may have written to its slice, so that it gets one of its own.
    fn read(&mut self, into: &mut [u8]) -> Result<usize, Failed> {
        if into.is_empty() {
            return Ok(0);
        }
        let mut turn = [0u8; MOST];
        let most = into.len().min(MOST);
        match self.connection.read(&mut turn[..most]) {
            Ok(count) => {
                into[..count].copy_from_slice(&turn[..count]);
                Ok(count)
            }
            Err(_) => {
                self.faults = counted_up(self.faults);
                Err(Failed)
            }
        }
    }
}
