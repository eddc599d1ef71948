//! Laws of typed values, as contracts: X.690, sections 8, 10 and 11.

ghost use Rattle.typed_laws.specs.FilterLaws.{FilterIsChoice};
ghost use Rattle.typed_laws.specs.ReadingLaws.{ReadingDenotes, DenotedIsRead, ReadingIsExact, NoneIsDenoted};
ghost use Rattle.typed_laws.specs.ReadingLaws.{SpeltHasOctets};
ghost use Rattle.typed_laws.specs.WritingLaws.{WrittenIsReadAgain, WrittenDenotes, WrittenIsReadBack, OneValueWritten};

/// The value that is read from a tree is one that the tree denotes. Where the tags of the syntax are clear, a value is
/// read exactly where the tree denotes one; it is that one, where no two members of a SET OF have one encoding. Does
/// nothing.
pub fn reading_is_denoting()
    ensures denotes { ReadingDenotes }
    ensures read { DenotedIsRead }
    ensures exact { ReadingIsExact }
    ensures none { NoneIsDenoted }
    ensures octets { SpeltHasOctets }
{}

/// What is written for a value is that of a tree from which the value is read. It spells a tree that denotes the value
/// if each octet is below 256. The octets are read back, whatever follows, where at most 32 constructed values stand
/// inside one another, and no two values have one encoding. The value fits the syntax, whose tags are clear and can be
/// written (none is universal 0), and the octets are fewer than 2^32. Does nothing.
pub fn written_is_read_back()
    ensures again { WrittenIsReadAgain }
    ensures denotes { WrittenDenotes }
    ensures read_back { WrittenIsReadBack }
    ensures one_value { OneValueWritten }
{}

/// A tree is a CMISFilter by its form exactly where a value of the CHOICE of a filter's alternatives is read from it.
/// Does nothing.
pub fn filter_is_choice()
    ensures { FilterIsChoice }
{}
