//! Where bytes are written.
ghost use Rattle.std.specs.Prelude.{◌≡◌, ℕ, ◌<◌, ◌≤◌, List, Option, IfOk, OnOk, OnErr, length, take};
ghost use Rattle.agent_bytes.specs.Faults.{Rose};
ghost use Rattle.agent_bytes.specs.Told.{gained};

use crate::failed::Failed;

/// Takes bytes, as standard output or a connection does.
pub trait Sink {
    /// All bytes that were written, where the sink tells them.
    ghost contents: { Self → Option (List ℕ) };

    /// How many calls have failed. The count stays at 2^64 - 1.
    ghost faults: { Self → ℕ };

    /// Takes bytes from the front of `from`, and answers how many: at least one, unless `from` is
    /// empty. A failed call takes none.
    fn write(&mut self, from: &[u8]) -> Result<usize, Failed>
        ensures within { IfOk result (λ count. count ≤ length from.now) }
        ensures takes { IfOk result (λ count. 0 < length from.now → 0 < count) }

        // What is told gains the bytes that were taken, and nothing at a fault.
        ensures written { IfOk result (λ count.
            contents self.new ≡ gained (contents self.old) (take count from.now)) }
        ensures kept { OnErr result (contents self.new ≡ contents self.old) }

        // A failed call is counted, and no other.
        ensures failed { OnErr result (Rose (faults self.old) (faults self.new)) }
        ensures quiet { OnOk result (faults self.new ≡ faults self.old) }
        ensures counted { faults self.old ≤ faults self.new };

    /// Says that nothing more is written. A sink that is one half of a connection ends both halves: a read that waits
    /// on the other one comes back. The bytes that were written, and the count, stay as they are.
    fn end(&mut self)
        ensures stays { contents self.new ≡ contents self.old }
        ensures uncounted { faults self.new ≡ faults self.old }
    {}
}
