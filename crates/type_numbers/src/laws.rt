//! What numbers of types tell (docs/PROFILE.md, section 12).

ghost use Rattle.type_numbers.specs.OneMeaning.{NumbersTellTypes};

/// Two types have one number exactly where they are one. Does nothing.
pub fn numbers_tell_types()
    ensures { NumbersTellTypes }
{}
