//! Laws of the map of objects, each as the contract of a function that does nothing.

ghost use Rattle.term_model.specs.MapLaws.{EqualMaps, NamesRise, NextIsLeast, NoneIsGreater, OthersAreLeft, OthersStay};
ghost use Rattle.term_model.specs.MapLaws.{RemovedIsGone, StoredIsFound};

/// Under its name stands the object that was stored last.
pub fn stored_is_found()
    ensures { StoredIsFound }
{}

/// Under each other name than the stored one stands what stood there.
pub fn others_stay()
    ensures { OthersStay }
{}

/// The names of the map rise before and behind a storing.
pub fn names_rise()
    ensures { NamesRise }
{}

/// Maps that have the same object under each name are the same list.
pub fn equal_maps()
    ensures { EqualMaps }
{}

/// Under a name that was taken out stands nothing, and under each other name what stood there.
pub fn removed_is_gone()
    ensures gone { RemovedIsGone }
    ensures left { OthersAreLeft }
{}

/// The object that follows a name has the least greater name; where none follows, no name is greater.
pub fn next_is_least()
    ensures least { NextIsLeast }
    ensures none { NoneIsGreater }
{}
