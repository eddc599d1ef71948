//! What an operation is answered that asks for its next lock.

/// The answer to an operation that asks for the next lock of its path.
#[derive(Clone, Copy, Debug, PartialEq, Eq, Drop)]
pub enum Grant {
    /// It now holds the lock at this place of its path too.
    Held(u64),
    /// It holds its whole path already.
    Full,
    /// Another operation holds on the lock name that it wants a mode that doesn't go with the wanted one.
    Blocked {
        /// The number of an operation that holds such a mode.
        by: u64,
        /// The place of the wanted lock in the path of the operation that asks.
        at: u64,
    },
}
