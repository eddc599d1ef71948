//! Laws of what whole operations leave, as contracts: X.711, section 7.

ghost use Rattle.operation_laws.specs.KeptMaps.{GetChangesNothing, SetKeepsMap};
ghost use Rattle.operation_laws.specs.LinkedContents.{ContentsAreRead};

/// An m-Get leaves the map of objects as it is, whatever it selects. Does nothing.
pub fn gets_change_nothing()
    ensures { GetChangesNothing }
{}

/// An m-Set on a well-formed map leaves one, by either synchronization and whatever it selects: the objects obey their
/// templates, and their names are those of objects of their classes, whose superiors are there. Does nothing.
pub fn sets_keep_maps()
    ensures { SetKeepsMap }
{}

/// What a linked reply takes over of a result, or of an error's parameter, is what stands in it: the contents octets of
/// a SEQUENCE that was written are read back, of any length. Does nothing.
pub fn contents_are_read()
    ensures { ContentsAreRead }
{}
