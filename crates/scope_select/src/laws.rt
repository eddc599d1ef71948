//! Laws of scopes, each as the contract of a function that does nothing.

ghost use Rattle.scope_select.specs.ScopeLaws.{ListHasNames, TestTellsWithin};

/// The test of a name that computes says whether a scope reaches it.
pub fn test_tells_within()
    ensures { TestTellsWithin }
{}

/// The list of the names in scope has the names in scope, and no others.
pub fn list_has_names()
    ensures { ListHasNames }
{}
