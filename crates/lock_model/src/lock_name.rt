//! Lock names and modes: docs/PROFILE.md, section 20. A lock stands on a name, whether an object has it or not.

use term_model::Name;

/// How much of the naming tree a lock is on.
#[derive(Clone, Copy, Debug, PartialEq, Eq, Drop)]
pub enum Part {
    /// Subtree lock: the object of the name and all below it.
    Tree,
    /// Node lock: the object of the name alone. It stands just below the subtree lock of its name.
    Own,
}

/// A name, and how much of the tree at this name is meant.
#[derive(Drop)]
pub struct LockName {
    /// The name, of at most 32 parts; the root's is empty.
    pub name: Name,
    /// The subtree or the object alone.
    pub part: Part,
}

/// The mode of a lock: what its holder may do, and which modes of others go with it.
#[derive(Clone, Copy, Debug, PartialEq, Eq, Drop)]
pub enum Mode {
    /// Intention shared: something below is read.
    IS,
    /// Intention exclusive: something below is written.
    IX,
    /// Shared: all that the lock name means is read.
    S,
    /// Exclusive: all that the lock name means is written.
    X,
}
