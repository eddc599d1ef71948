//! Where the agent listens, beside the files that it reads.
ghost use Rattle.std.specs.Prelude.{ℕ, ◌≡◌, ◌≢◌, ◌≤◌, List, Option, Err, IfOk, All, map, vec_len};
ghost use Rattle.agent_bytes.specs.Faults.{Rose};
ghost use Rattle.agent_links.specs.Shares.{shares};
ghost use Rattle.agent_links.specs.Sessions.{Session, AreDealt, undealt};

use crate::acceptor::Post;
use agent_bytes::Files;
use std::alloc::Global;
use thiserror::Error;

/// Why no acceptors were made.
#[derive(Clone, Copy, Debug, PartialEq, Eq, Error)]
pub enum YardRefusal {
    /// The address can't be listened on: the count of faults rose.
    #[error("the address can't be listened on")]
    Failed,
    /// There is no memory for the acceptors.
    #[error("no memory for the acceptors")]
    Memory,
}

/// Opens files and listens; one acceptor for each worker.
pub trait Yard: Files {
    /// What gives a worker its sessions.
    type Post: Post;

    /// The sessions that come, in order, where they are told. Past its end a session has an empty source and an empty
    /// sink.
    ghost offered: { Self → Option (List Session) };

    /// How many calls of `listen` have failed. The count stays at 2^64 - 1, and reading files leaves it as it is.
    ghost yard_faults: { Self → ℕ };

    /// Listens on `addr` for `sessions` sessions, and makes an acceptor for each of `workers` workers. The acceptor k,
    /// counted from 0, has the share `sessions / workers`, and one more where `k < sessions % workers`.
    fn listen(
        &mut self,
        alloc: Global,
        addr: &str,
        sessions: u32,
        workers: u32,
    ) -> Result<Vec<Self::Post>, YardRefusal>
        // One acceptor for each worker, with its share, and no fault so far.
        ensures shares { IfOk result (λ posts. map Self.Post.left posts.items ≡ shares sessions workers) }
        ensures fresh { IfOk result (λ posts. All (λ post. Self.Post.faults post ≡ 0) posts.items) }

        // Each tells its part of the list, which is as long as its share and follows the parts before it.
        ensures dealt { IfOk result (λ posts.
            AreDealt (offered self.old) sessions workers (map Self.Post.sessions posts.items)) }
        ensures rest { IfOk result (λ _. offered self.new ≡ undealt (offered self.old) sessions workers) }

        // A failed call changes nothing but its count, and no other is counted.
        ensures failed { result ≡ Err YardRefusal.Failed → Rose (yard_faults self.old) (yard_faults self.new) }
        ensures kept { result ≡ Err YardRefusal.Failed → offered self.new ≡ offered self.old }
        ensures quiet { result ≢ Err YardRefusal.Failed → yard_faults self.new ≡ yard_faults self.old }
        ensures counted { yard_faults self.old ≤ yard_faults self.new }

        // The files, and the count of their faults, stay.
        ensures same { Self.files self.new ≡ Self.files self.old }
        ensures beside { Self.faults self.new ≡ Self.faults self.old };

    /// Reading a file leaves the sessions, and the count of `listen`, as they are.
    ghost beside_files: { (before after : Self) → Self.SameBeside before after →
        (offered after ≡ offered before) × (yard_faults after ≡ yard_faults before) };
}
