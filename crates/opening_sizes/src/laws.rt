//! A law of the sizes of objects at the opening, as a contract.

ghost use Rattle.opening_sizes.specs.OpeningSizes.{OpenedAreSmall};

/// Each object at the opening has at most 16,384 octets, as requests ask, whatever the schema is. Does nothing.
pub fn opened_are_small()
    ensures { OpenedAreSmall }
{}
