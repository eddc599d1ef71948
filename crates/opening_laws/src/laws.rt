//! Laws of the objects at the opening, and of the names and records of a schema.

ghost use Rattle.opening_laws.specs.OpeningLaws.{OpenedAreByName, OpenedAreFew, OpenedAreGood, OpenedHaveAttributes};
ghost use Rattle.opening_laws.specs.OpeningLaws.{OpenedHaveObjects, OpenedHaveRoot, OpenedHaveSuperiors};
ghost use Rattle.opening_laws.specs.OpeningLaws.{NamesAreRead, WholeHasRecordOnce};

/// The names rise, each once.
pub fn opened_are_by_name()
    ensures { OpenedAreByName }
{}

/// The root is there.
pub fn opened_have_root()
    ensures { OpenedHaveRoot }
{}

/// There are at most 100,000.
pub fn opened_are_few()
    ensures { OpenedAreFew }
{}

/// Each other object has its superior there, and a name of at most 32 parts.
pub fn opened_have_superiors()
    ensures { OpenedHaveSuperiors }
{}

/// Each object is of a class of the schema, has attributes of its packages, each once and by rising identifier, and
/// has at most 16,384 octets.
pub fn opened_have_objects()
    ensures { OpenedHaveObjects }
{}

/// Each object has every attribute of its packages, where no class has two records.
pub fn opened_have_attributes()
    ensures { OpenedHaveAttributes }
{}

/// No class of a whole schema has two records.
pub fn whole_schemas_have_records_once()
    ensures { WholeHasRecordOnce }
{}

/// The objects are a well-formed map, where the schema is whole and everything in it has an encoding. Does nothing.
pub fn opened_are_good()
    ensures { OpenedAreGood }
{}

/// The value whose encoding a part of a name holds, in fewer than 2^32 octets, is read from it, however deep it nests,
/// where the schema is whole and everything in it has an encoding. Does nothing.
pub fn names_are_read()
    ensures { NamesAreRead }
{}
