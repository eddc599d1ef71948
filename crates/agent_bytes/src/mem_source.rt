//! A source in memory, for tests.
ghost use Rattle.std.specs.Prelude.{◌≡◌, ◌↔◌, ◌<◌, ◌≤◌, [], ◌++◌, Some, IfOk, OnErr, IsErr, Contains, length, take};
ghost use Rattle.std.specs.Prelude.{drop, min};
ghost use Rattle.agent_bytes.specs.Faults.{Rose, one_more};

use crate::count::counted_up;
use crate::failed::Failed;
use crate::source::Source;
use std::marker::Model;

/// A source that gives the bytes that it was made with, with a list of the calls that are to fail.
#[derive(Drop)]
pub struct MemSource {
    bytes: Vec<u8>,
    at: usize,
    turn: usize,
    failing: Vec<u64>,
    calls: u64,
    faults: u64,
}

impl Model for MemSource {
    ghost use Rattle.std.specs.Prelude.{ℕ, ◌<◌, ◌≤◌, drop, vec_len};
    ghost use Rattle.agent_bytes.specs.Memory.{SourceState};

    ghost Value = { SourceState };

    ghost view = { λ s. record {
      left = drop s.at s.bytes.items;
      turn = s.turn;
      failing = s.failing.items;
      calls = s.calls;
      faults = s.faults;
    } };

    ghost invariant = { λ s. (s.at ≤ vec_len s.bytes) × (0 < s.turn) };
}

impl MemSource {
    /// A source of these bytes. The calls of `read` whose numbers are in `failing` are to fail;
    /// the first call has the number 0.
    pub fn new(bytes: Vec<u8>, failing: Vec<u64>) -> MemSource
        ensures { result ≡ record {
          left = bytes.items;
          turn = usize.MAX;
          failing = failing.items;
          calls = 0;
          faults = 0;
        } }
    {
        MemSource {
            bytes,
            at: 0,
            turn: usize::MAX,
            failing,
            calls: 0,
            faults: 0,
        }
    }

    /// The same source, of which each call gives at most `turn` bytes.
    pub fn in_turns(mut self, turn: usize) -> MemSource
        requires { 0 < turn }
        ensures { result ≡ record self { turn = turn } }
    {
        self.turn = turn;
        self
    }

    /// The bytes that are left.
    pub fn left(&self) -> &[u8]
        ensures { result.now ≡ self.now.left }
    {
        &self.bytes[self.at..]
    }

    /// How many calls there were.
    pub fn calls(&self) -> u64
        ensures { result ≡ self.now.calls }
    {
        self.calls
    }

    /// How many calls have failed.
    pub fn faults(&self) -> u64
        ensures { result ≡ self.now.faults }
    {
        self.faults
    }

    // The bytes are given, and neither calls nor faults are counted.
    fn give(&mut self, into: &mut [u8]) -> Result<usize, Failed>
        ensures fails { IsErr result ↔ Contains self.old.failing self.old.calls }
        ensures count { IfOk result (λ count.
            count ≡ min (length into.old) (min self.old.turn (length self.old.left))) }
        ensures moved { IfOk result (λ count.
            into.new ≡ take count self.old.left ++ drop count into.old) }
        ensures gave { IfOk result (λ count.
            self.new ≡ record self.old { left = drop count self.old.left }) }
        ensures read { IfOk result (λ count.
            self.old.left ≡ take count into.new ++ self.new.left) }
        ensures ended { IfOk result (λ count.
            count ≡ 0 → 0 < length into.new → self.new.left ≡ []) }
        ensures kept { OnErr result (self.new ≡ self.old) }
        ensures untouched { OnErr result (into.new ≡ into.old) }
    {
        if self.failing.contains(&self.calls) {
            return Err(Failed);
        }
        let left = &self.bytes[self.at..];
        let count = into.len().min(self.turn).min(left.len());
        into[..count].copy_from_slice(&left[..count]);
        self.at += count;
        Ok(count)
    }
}

impl Source for MemSource {
    ghost left = { λ source. Some source.left };

    ghost faults = { λ source. source.faults };

    fn read(&mut self, into: &mut [u8]) -> Result<usize, Failed>
        // It fails exactly where the call is listed, and gives as much as the turn allows.
        ensures fails { IsErr result ↔ Contains self.old.failing self.old.calls }
        ensures count { IfOk result (λ count.
            count ≡ min (length into.old) (min self.old.turn (length self.old.left))) }
        ensures moved { IfOk result (λ count.
            into.new ≡ take count self.old.left ++ drop count into.old) }

        // Each call is counted, and a failed one changes nothing but the counts.
        ensures gave { IfOk result (λ count. self.new ≡ record self.old {
          left = drop count self.old.left;
          calls = one_more self.old.calls;
        }) }
        ensures refused { OnErr result (self.new ≡ record self.old {
          calls = one_more self.old.calls;
          faults = one_more self.old.faults;
        }) }
        ensures untouched { OnErr result (into.new ≡ into.old) }

        // As every source.
        ensures read { IfOk result (λ count.
            self.old.left ≡ take count into.new ++ self.new.left) }
        ensures ended { IfOk result (λ count.
            count ≡ 0 → 0 < length into.new → self.new.left ≡ []) }
        ensures failed { OnErr result (Rose self.old.faults self.new.faults) }
        ensures counted { self.old.faults ≤ self.new.faults }
    {
        let answer = self.give(into);
        self.calls = counted_up(self.calls);
        if answer.is_err() {
            self.faults = counted_up(self.faults);
        }
        answer
    }
}
