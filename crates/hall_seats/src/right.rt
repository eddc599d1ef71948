//! Rights to extend the journal.

/// A right to add the entries of one kind for one association. It stands in one pass alone.
#[derive(Clone, Copy, Debug, PartialEq, Eq)]
pub enum Right {
    /// To say what arrived from this association, and that no more comes.
    Arriving(u64),
    /// To say what was taken of the bytes placed for this association.
    Taking(u64),
    /// To say why this association was closed. Whoever has both of the others has it; no pass lists it.
    Closing(u64),
}
