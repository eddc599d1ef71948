//! Standard output as a sink.
ghost use Rattle.std.specs.Prelude.{◌≡◌, ◌≤◌, None};
ghost use Rattle.agent_bytes.specs.Faults.{Rose};

use crate::count::counted_up;
use crate::failed::Failed;
use crate::sink::Sink;
use std::marker::Model;

/// The runtime's standard output. It tells no bytes. A write that takes nothing is a fault.
#[derive(Drop)]
pub struct StdoutSink<'a, R: Print> {
    rt: &'a R,
    faults: u64,
}

impl<'a, R: Print> Model for StdoutSink<'a, R> {
    ghost use Rattle.std.specs.Prelude.{ℕ};

    // The count of faults is all that callers see.
    ghost Value = { ℕ };

    ghost view = { λ s. s.faults };
}

impl<'a, R: Print> StdoutSink<'a, R> {
    /// Standard output of `rt`, with no fault so far.
    pub fn new(rt: &'a R) -> StdoutSink<'a, R>
        ensures { result ≡ 0 }
    {
        StdoutSink { rt, faults: 0 }
    }

    /// How many calls have failed.
    pub fn faults(&self) -> u64
        ensures { result ≡ self.now }
    {
        self.faults
    }

    fn fail(&mut self) -> Failed
        ensures rose { Rose self.old self.new }
        ensures counted { self.old ≤ self.new }
    {
        self.faults = counted_up(self.faults);
        Failed
    }
}

impl<'a, R: Print> Sink for StdoutSink<'a, R> {
    ghost contents = { λ _. None };

    ghost faults = { λ count. count };

    fn write(&mut self, from: &[u8]) -> Result<usize, Failed> {
        match self.rt.write_some(from) {
            Ok(count) => {
                if count == 0 && !from.is_empty() {
                    return Err(self.fail());
                }
                Ok(count)
            }
            Err(_) => Err(self.fail()),
        }
    }
}
