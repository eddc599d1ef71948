//! Why no answer was given.

/// The attribute lacks the rule, or its syntax isn't of the rule's kind.
#[derive(Clone, Copy, Debug, PartialEq, Eq, Drop)]
pub struct NotMatched;
