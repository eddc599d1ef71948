//! Laws of the spelling, the reading and the writing of trees, and of faults, as contracts: X.690, sections 8.1.2 to
//! 8.1.5, 8.3 and 10.1.

ghost use Rattle.term_values.specs.SpellingLaws.{OneTree, ReadingSpells, SpellingIsRead, WholeReading, WrittenSpells};
ghost use Rattle.term_values.specs.SpellingLaws.{WrittenIsRead, NumberOfOctets, OctetsOfNumber};
ghost use Rattle.term_values.specs.SpellingLaws.{NoFaultBesideTree, SomeFault, OneFault, FoundFault};

/// No spelling of a tree begins another one, and each spells one tree.
pub fn one_tree()
    ensures { OneTree }
{}

/// What is read from the front of octets is what they spell, and octets are read as a tree exactly where they spell it.
pub fn reading_is_spelling()
    ensures read { ReadingSpells }
    ensures spelt { SpellingIsRead }
    ensures whole { WholeReading }
{}

/// Bytes of which some front spells a tree have no fault. All others have exactly one, and the reading finds it.
pub fn first_fault()
    ensures beside { NoFaultBesideTree }
    ensures some { SomeFault }
    ensures one { OneFault }
    ensures found { FoundFault }
{}

/// What is written for a tree spells it, and is read back whatever follows it. The tree has tags other than universal
/// 0, tag numbers and lengths of 32 bits, and no more constructed values inside one another than are read.
pub fn written_is_spelling()
    ensures spells { WrittenSpells }
    ensures read_back { WrittenIsRead }
{}

/// A number of 64 bits is that of its octets, and octets are those of their number.
pub fn number_of_octets()
    ensures number { NumberOfOctets }
    ensures octets { OctetsOfNumber }
{}
