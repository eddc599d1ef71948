//! The files that the agent reads.
ghost use Rattle.std.specs.Prelude.{◌≡◌, ◌≢◌, ℕ, ◌≤◌, List, Option, Err, IfOk, vec_len};
ghost use Rattle.agent_bytes.specs.Faults.{Rose};
ghost use Rattle.agent_bytes.specs.Told.{IsFile, IsLonger};

use crate::failed::FileRefusal;
use std::alloc::Global;

/// Reads whole files by their names.
pub trait Files {
    /// The bytes of each file by its name, where they are told. A name without a file has none.
    ghost files: { Self → Option (List ℕ → Option (List ℕ)) };

    /// How many calls of `read_file` have failed. The count stays at 2^64 - 1.
    ghost faults: { Self → ℕ };

    /// What `read_file` leaves as it was beside the files: nothing, if an impl doesn't say.
    /// A trait with further calls says by a law what of its own follows from it.
    ghost SameBeside: { Self → Self → Type 0 } = { λ _ _. Unit {0} };

    /// Reads the file `name`, of at most `limit` bytes. A name without a file is a fault.
    fn read_file(&mut self, alloc: Global, name: &str, limit: u64) -> Result<Vec<u8>, FileRefusal>
        // All bytes of the file, and no more than the limit.
        ensures read { IfOk result (λ bytes. IsFile (files self.old) name.now bytes.items) }
        ensures within { IfOk result (λ bytes. vec_len bytes ≤ limit) }

        // Reading changes no file.
        ensures same { files self.new ≡ files self.old }
        ensures beside { SameBeside self.old self.new }

        // The named file is there and has more than `limit` bytes.
        ensures too_large { result ≡ Err FileRefusal.TooLarge →
            IsLonger (files self.old) name.now limit }

        // A failed call is counted, and no other.
        ensures failed { result ≡ Err FileRefusal.Failed → Rose (faults self.old) (faults self.new) }
        ensures quiet { result ≢ Err FileRefusal.Failed → faults self.new ≡ faults self.old }
        ensures counted { faults self.old ≤ faults self.new };
}
