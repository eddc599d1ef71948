//! A law of what types denote, as a contract: X.680, sections 17 to 51.

ghost use Rattle.asn1_names.specs.OneSyntax.{OneSyntaxIsDenoted};

/// A type denotes one syntax, and no second one. Does nothing.
pub fn one_syntax_is_denoted()
    ensures { OneSyntaxIsDenoted }
{}
