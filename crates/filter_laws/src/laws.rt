//! Laws of filters and assertions, as contracts: X.711, section 7.5.

ghost use Rattle.filter_laws.specs.DenotingLaws.{DenotedFilterIsRead, DenotedIdIsRead, FilterIsDenoted, GivenIsDenoted};
ghost use Rattle.filter_laws.specs.DenotingLaws.{IdIsDenoted, NoFilterIsDenoted};

/// The identifier that is read from a tree is one that the tree denotes, and one that is denoted is read. The value of
/// an assertion is one that its tree denotes, and is none exactly where the tree denotes none. The filter that is read
/// is one that the tree denotes, and one is read exactly where one is denoted. The tags of the attributes' syntaxes are
/// clear. Does nothing.
pub fn reading_is_denoting()
    // identifiers
    ensures id { IdIsDenoted }
    ensures id_read { DenotedIdIsRead }

    // assertions
    ensures given { GivenIsDenoted }

    // filters
    ensures filter { FilterIsDenoted }
    ensures filter_read { DenotedFilterIsRead }
    ensures no_filter { NoFilterIsDenoted }
{}
