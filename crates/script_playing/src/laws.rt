//! A law of journals, as a contract.

ghost use Rattle.script_playing.specs.GoodObjects.{ObjectsStayGood};

/// Well-formed objects are well-formed behind any journal, and so behind each part of the journal of a script. Does
/// nothing.
pub fn objects_stay_good()
    ensures { ObjectsStayGood }
{}
