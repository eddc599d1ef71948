//! A sink in memory, for tests.
ghost use Rattle.std.specs.Prelude.{◌≡◌, ◌↔◌, ◌-◌, ◌<◌, ◌≤◌, [], ◌++◌, Some, IfOk, OnErr, IsErr, length, take, min};
ghost use Rattle.agent_bytes.specs.Faults.{Rose, one_more};
ghost use Rattle.agent_bytes.specs.Memory.{WriteFails};

use crate::count::counted_up;
use crate::failed::Failed;
use crate::sink::Sink;
use std::alloc::{AllocError, Global};
use std::marker::Model;

/// A sink that keeps what it takes. It has a fixed room, and a list of the calls that are to fail.
#[derive(Drop)]
pub struct MemSink {
    bytes: Vec<u8>,
    room: usize,
    turn: usize,
    failing: Vec<u64>,
    calls: u64,
    faults: u64,
}

impl Model for MemSink {
    ghost use Rattle.std.specs.Prelude.{ℕ, ◌+◌, ◌<◌, ◌≤◌, vec_len, vec_capacity};
    ghost use Rattle.agent_bytes.specs.Memory.{SinkState};

    ghost Value = { SinkState };

    ghost view = { λ s. record {
      written = s.bytes.items;
      room = s.room;
      turn = s.turn;
      failing = s.failing.items;
      calls = s.calls;
      faults = s.faults;
    } };

    ghost invariant = { λ s. (vec_len s.bytes + s.room ≤ vec_capacity s.bytes) × (0 < s.turn) };
}

impl MemSink {
    /// An empty sink with room for `room` bytes. The calls of `write` whose numbers are in
    /// `failing` are to fail; the first call has the number 0. `Err`: there is no memory.
    pub fn new(alloc: Global, room: usize, failing: Vec<u64>) -> Result<MemSink, AllocError>
        ensures { IfOk result (λ sink. sink ≡ record {
          written = [];
          room = room;
          turn = usize.MAX;
          failing = failing.items;
          calls = 0;
          faults = 0;
        }) }
    {
        let bytes = Vec::with_capacity(alloc, room)?;
        Ok(MemSink {
            bytes,
            room,
            turn: usize::MAX,
            failing,
            calls: 0,
            faults: 0,
        })
    }

    /// The same sink, of which each call takes at most `turn` bytes.
    pub fn in_turns(mut self, turn: usize) -> MemSink
        requires { 0 < turn }
        ensures { result ≡ record self { turn = turn } }
    {
        self.turn = turn;
        self
    }

    /// All bytes that were taken.
    pub fn written(&self) -> &[u8]
        ensures { result.now ≡ self.now.written }
    {
        self.bytes.as_slice()
    }

    /// How many calls there were.
    pub fn calls(&self) -> u64
        ensures { result ≡ self.now.calls }
    {
        self.calls
    }

    /// How many calls have failed.
    pub fn faults(&self) -> u64
        ensures { result ≡ self.now.faults }
    {
        self.faults
    }

    // The bytes are taken, and neither calls nor faults are counted.
    fn accept(&mut self, from: &[u8]) -> Result<usize, Failed>
        ensures fails { IsErr result ↔ WriteFails self.old from.now }
        ensures count { IfOk result (λ count.
            count ≡ min (length from.now) (min self.old.turn self.old.room)) }
        ensures took { IfOk result (λ count. self.new ≡ record self.old {
          written = self.old.written ++ take count from.now;
          room = self.old.room - count;
        }) }
        ensures kept { OnErr result (self.new ≡ self.old) }
    {
        if self.failing.contains(&self.calls) {
            return Err(Failed);
        }
        if self.room == 0 && !from.is_empty() {
            return Err(Failed);
        }
        let count = from.len().min(self.turn).min(self.room);
        if self.bytes.extend_from_slice(&from[..count]).is_err() {
            return Err(Failed);
        }
        self.room -= count;
        Ok(count)
    }
}

impl Sink for MemSink {
    ghost contents = { λ sink. Some sink.written };

    ghost faults = { λ sink. sink.faults };

    fn write(&mut self, from: &[u8]) -> Result<usize, Failed>
        // It fails exactly where `WriteFails` says, and takes as much as turn and room allow.
        ensures fails { IsErr result ↔ WriteFails self.old from.now }
        ensures count { IfOk result (λ count.
            count ≡ min (length from.now) (min self.old.turn self.old.room)) }

        // Each call is counted, and a failed one changes nothing but the counts.
        ensures took { IfOk result (λ count. self.new ≡ record self.old {
          written = self.old.written ++ take count from.now;
          room = self.old.room - count;
          calls = one_more self.old.calls;
        }) }
        ensures refused { OnErr result (self.new ≡ record self.old {
          calls = one_more self.old.calls;
          faults = one_more self.old.faults;
        }) }

        // As every sink.
        ensures takes { IfOk result (λ count. 0 < length from.now → 0 < count) }
        ensures failed { OnErr result (Rose self.old.faults self.new.faults) }
        ensures counted { self.old.faults ≤ self.new.faults }
    {
        let answer = self.accept(from);
        self.calls = counted_up(self.calls);
        if answer.is_err() {
            self.faults = counted_up(self.faults);
        }
        answer
    }
}
