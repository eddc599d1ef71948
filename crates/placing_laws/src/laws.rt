//! Laws of where the tokens of what was read stand, as contracts: docs/PROFILE.md, sections 1 and 2.

ghost use Rattle.placing_laws.specs.PlacingLaws.{LabelsStandApart, TypesBeginInOrder};

/// No two templates of documents that were read, those in line too, have their labels at one place of one document.
/// Does nothing.
pub fn labels_stand_apart()
    ensures { LabelsStandApart }
{}

/// In the modules of documents that were read each type begins no later than the types in its text. Does nothing.
pub fn types_begin_in_order()
    ensures { TypesBeginInOrder }
{}
