//! Laws of the arcs of identifiers that were read, as contracts: docs/PROFILE.md, sections 1 and 12.

ghost use Rattle.arc_laws.specs.ArcLaws.{ArcsAreWhole};

/// In documents that were read the arcs that templates and values state in digits are numbers of 64 bits. Does nothing.
pub fn arcs_are_whole()
    ensures { ArcsAreWhole }
{}
