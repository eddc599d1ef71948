//! The matching rules that an attribute may have: X.722, section 8.7.

/// The matching rules that an attribute has: X.722, section 8.7.
#[derive(Clone, Copy, Debug, PartialEq, Eq)]
pub struct Rules {
    /// EQUALITY
    pub equality: bool,
    /// ORDERING
    pub ordering: bool,
    /// SUBSTRINGS
    pub substrings: bool,
    /// SET-COMPARISON
    pub comparison: bool,
    /// SET-INTERSECTION
    pub intersection: bool,
}
