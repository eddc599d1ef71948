//! Where a worker's sessions come from, and its clock.
ghost use Rattle.std.specs.Prelude.{ℕ, ◌≡◌, ◌↔◌, ◌+◌, ◌≤◌, List, Option, None, Ok, IfOk, IfSome, OnOk, OnErr};
ghost use Rattle.agent_bytes.specs.Faults.{Rose};
ghost use Rattle.agent_links.specs.Sessions.{Session, Gives};

use agent_bytes::{Failed, Sink, Source};

/// One worker's share of the incoming sessions.
pub trait Post: Send + Sync + Drop {
    /// Gives a session's bytes.
    type In: Source + Send + Drop;

    /// Takes a session's answers.
    type Out: Sink + Send + Drop;

    /// How many sessions are left.
    ghost left: { Self → ℕ };

    /// The sessions that are left, where they are told.
    ghost sessions: { Self → Option (List Session) };

    /// How many calls of `next` have failed. The count stays at 2^64 - 1.
    ghost faults: { Self → ℕ };

    /// The next session, as the half that gives its bytes and the half that takes its answers, or `None` exactly where
    /// the share is used up. It may wait for a connection. It takes no memory. The connection of the session before is
    /// closed, so that its halves give and take nothing more.
    fn next(&mut self) -> Result<Option<(Self::In, Self::Out)>, Failed>
        // A session is the next one that was told. Its halves have no fault so far, and one less is left.
        ensures given { IfOk result (λ given. IfSome given (λ halves.
            Gives (sessions self.old) (Self.In.left halves.0) (Self.Out.contents halves.1) (sessions self.new))) }
        ensures fresh { IfOk result (λ given. IfSome given (λ halves.
            (Self.In.faults halves.0 ≡ 0) × (Self.Out.faults halves.1 ≡ 0))) }
        ensures fewer { IfOk result (λ given. IfSome given (λ _. left self.old ≡ left self.new + 1)) }

        // There is none exactly where no session is left.
        ensures ended { (result ≡ Ok None) ↔ (left self.old ≡ 0) }
        ensures none { (result ≡ Ok None) → (left self.new ≡ 0) × (sessions self.new ≡ sessions self.old) }

        // A failed call gives no session, and is counted, and no other is.
        ensures kept { OnErr result (
            (left self.new ≡ left self.old) × (sessions self.new ≡ sessions self.old)) }
        ensures failed { OnErr result (Rose (faults self.old) (faults self.new)) }
        ensures quiet { OnOk result (faults self.new ≡ faults self.old) }
        ensures counted { faults self.old ≤ faults self.new };

    /// Seconds since the beginning of 1970 in UTC, and 0 where the clock can't be read.
    fn now(&self) -> u64;
}
