//! Where bytes are read.
ghost use Rattle.std.specs.Prelude.{◌≡◌, ℕ, ◌<◌, ◌≤◌, List, Option, IfOk, OnOk, OnErr, length, take};
ghost use Rattle.std.specs.Io.KnownBytes.{Consumes, IsAtEnd};
ghost use Rattle.agent_bytes.specs.Faults.{Rose};

use crate::failed::Failed;

/// Gives bytes up to its end, as a connection does.
pub trait Source {
    /// The bytes that are left, where the source tells them.
    ghost left: { Self → Option (List ℕ) };

    /// How many calls have failed. The count stays at 2^64 - 1.
    ghost faults: { Self → ℕ };

    /// Moves bytes to the front of `into`, and answers how many: at least one, or 0 at the end of
    /// the input and for an empty slice. A failed call moves none. What `into` holds behind the
    /// bytes that were moved is open.
    fn read(&mut self, into: &mut [u8]) -> Result<usize, Failed>
        ensures within { IfOk result (λ count. count ≤ length into.new) }

        // The bytes moved are the first of those that were left, and the others are left.
        ensures read { IfOk result (λ count.
            Consumes (left self.old) (left self.new) (take count into.new)) }
        ensures ended { IfOk result (λ count.
            count ≡ 0 → 0 < length into.new → IsAtEnd (left self.new)) }

        // A failed call moves nothing.
        ensures kept { OnErr result (left self.new ≡ left self.old) }
        ensures untouched { OnErr result (into.new ≡ into.old) }

        // A failed call is counted, and no other.
        ensures failed { OnErr result (Rose (faults self.old) (faults self.new)) }
        ensures quiet { OnOk result (faults self.new ≡ faults self.old) }
        ensures counted { faults self.old ≤ faults self.new };
}
