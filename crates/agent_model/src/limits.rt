//! How much an agent holds at the most. The numbers are this project's own.

ghost use Rattle.std.specs.Prelude.{◌≡◌};
ghost use Rattle.agent_model.specs.AgentLimits.{shipped};

/// Limits of an agent.
#[derive(Clone, Copy, Debug, PartialEq, Eq)]
pub struct Limits {
    /// The most entries of its journal.
    pub entries: u64,
    /// The most bytes of the journal's text.
    pub text: u64,
    /// The most bytes that are placed for an association and not taken.
    pub untaken: u64,
    /// The most associations that are not closed.
    pub associations: u64,
}

impl Limits {
    /// The limits of the program: 4,000,000 entries, 512 MiB of text, 16 MiB untaken, 128 associations.
    pub const fn shipped() -> Limits
        ensures { result ≡ shipped }
    {
        Limits {
            entries: 4_000_000,
            text: 536_870_912,
            untaken: 16_777_216,
            associations: 128,
        }
    }
}
