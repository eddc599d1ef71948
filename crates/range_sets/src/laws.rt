//! A law of what ranges leave, as a contract: X.680, sections 49 to 51.

ghost use Rattle.range_sets.specs.OneRest.{OneRestIsLeft};

/// Ranges leave one form of bounds of others, and no second one. Does nothing.
pub fn one_rest_is_left()
    ensures { OneRestIsLeft }
{}
