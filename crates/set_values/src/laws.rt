//! Laws of members added and removed, as contracts: X.711, type ModifyOperator; X.690, section 11.6.

ghost use Rattle.set_values.specs.MemberLaws.{AddedOften, RemovedOften, AddedRise, RemovedRise, AddedFit, RemovedFit};
ghost use Rattle.set_values.specs.MemberLaws.{EqualEncodings};
ghost use Rattle.set_values.specs.MembersByValue.{AddedAreUnion, RemovedAreDifference};

/// Which members there are, and how often: with members added, each that was held as often as it was, and each other
/// one that was given once; with members removed, each that was not given as often as it was held, and no other. Does
/// nothing.
pub fn members_as_sets()
    ensures added { AddedOften }
    ensures removed { RemovedOften }
{}

/// Members stand by the rising order of their encodings where members were added, and where others of a rising order
/// were removed. Does nothing.
pub fn members_rise()
    ensures added { AddedRise }
    ensures removed { RemovedRise }
{}

/// Members that are added to those that fit, or left of them, fit. Does nothing.
pub fn members_fit()
    ensures added { AddedFit }
    ensures removed { RemovedFit }
{}

/// Members that fit a syntax whose tags are clear and can be written (none is universal 0), and that are written in
/// fewer than 2^32 octets, are equal exactly where their encodings are. Does nothing.
pub fn one_member_one_encoding()
    ensures { EqualEncodings }
{}

/// Of members that fit a syntax whose tags are clear and can be written (none is universal 0), and that are written in
/// fewer than 2^32 octets: with members added, the values are those that were held or are given; with members removed,
/// those that were held and are not given. Does nothing.
pub fn members_by_value()
    ensures added { AddedAreUnion }
    ensures removed { RemovedAreDifference }
{}
