//! What a connection of TCP takes.
ghost use Rattle.std.specs.Prelude.{◌≡◌, ◌≤◌, None};
ghost use Rattle.agent_bytes.specs.Faults.{Rose};

use crate::connection::Connection;
use crate::count::counted_up;
use agent_bytes::{Failed, Sink};
use std::alloc::Global;
use std::marker::Model;
use std::sync::Arc;

/// The half of a connection that takes bytes for the peer. It tells none. A write that takes nothing is a fault, and
/// after a fault both halves are ended, so that a read which waits for the peer comes back.
#[derive(Drop)]
pub struct TcpOut {
    connection: Arc<Connection, Global>,
    faults: u64,
}

impl Model for TcpOut {
    ghost use Rattle.std.specs.Prelude.{ℕ};

    // The count of faults is all that callers see.
    ghost Value = { ℕ };

    ghost view = { λ s. s.faults };
}

impl TcpOut {
    /// The half that writes to `connection`, with no fault so far.
    pub fn new(connection: Arc<Connection, Global>) -> TcpOut
        ensures { result ≡ 0 }
    {
        TcpOut {
            connection,
            faults: 0,
        }
    }

    /// How many calls have failed.
    pub fn faults(&self) -> u64
        ensures { result ≡ self.now }
    {
        self.faults
    }

    fn fail(&mut self) -> Failed
        ensures rose { Rose self.old self.new }
        ensures counted { self.old ≤ self.new }
    {
        self.connection.hang_up();
        self.faults = counted_up(self.faults);
        Failed
    }
}

impl Sink for TcpOut {
    ghost contents = { λ _. None };

    ghost faults = { λ count. count };

    fn write(&mut self, from: &[u8]) -> Result<usize, Failed> {
        match self.connection.write(from) {
            Ok(count) => {
                if count == 0 && !from.is_empty() {
                    return Err(self.fail());
                }
                Ok(count)
            }
            Err(_) => Err(self.fail()),
        }
    }

    fn end(&mut self) {
        self.connection.hang_up();
    }
}
