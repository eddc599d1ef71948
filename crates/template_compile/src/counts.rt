//! What a set of documents has, by kinds, as an operator is told by `check` (docs/PROFILE.md, section 2).

/// How many there are of each kind.
#[derive(Clone, Copy, PartialEq, Eq, Debug, Drop)]
pub struct Counts {
    /// The documents.
    pub documents: u64,
    /// The templates of managed object classes, those in line too, as all templates here.
    pub classes: u64,
    /// The templates of packages.
    pub packages: u64,
    /// The templates of attributes.
    pub attributes: u64,
    /// The templates of attribute groups.
    pub groups: u64,
    /// The templates of name bindings.
    pub bindings: u64,
    /// The templates of actions.
    pub actions: u64,
    /// The templates of notifications.
    pub notifications: u64,
    /// The templates of parameters.
    pub parameters: u64,
    /// The templates of behaviours.
    pub behaviours: u64,
    /// The types that modules of the documents assign.
    pub types: u64,
}
