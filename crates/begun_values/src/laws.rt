//! A law of the three calls that mark first names, as a contract (X.680, section 32; docs/PROFILE.md, section 12).

ghost use Rattle.begun_values.specs.BegunLaw.{MarksTellBegun};

/// Where the names of modules' values, of sections' values and of identifiers are marked, exactly those are with which
/// something begins. Does nothing.
pub fn marks_tell_begun()
    ensures { MarksTellBegun }
{}
