//! Points of a session at which a test may hold its thread.

/// Where a session stands.
#[derive(Clone, Copy, Debug, PartialEq, Eq)]
pub enum Point {
    /// An operation was granted, and isn't committed.
    Granted,
    /// An operation was committed.
    Placed,
}

/// Called at named points so that a test can hold a thread; `Always` does nothing. It is lent to all threads.
pub trait Gate: Sync {
    /// The session of the association with the number `association` is at `point`.
    fn pass(&self, point: Point, association: u64);
}

/// Called at named points so that a test can hold a thread; `Always` does nothing.
#[derive(Clone, Copy, Drop)]
pub struct Always;

impl Gate for Always {
    fn pass(&self, _point: Point, _association: u64) {}
}
