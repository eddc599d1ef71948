//! Why a filter has no truth.

/// An item of the filter is invalid: of an attribute that is known, the attribute lacks the rule that the item asks
/// for, its syntax isn't of the rule's kind, or the asserted value doesn't fit; or pieces have no piece or name two
/// attributes.
#[derive(Clone, Copy, Debug, PartialEq, Eq, Drop)]
pub struct InvalidFilter;
