//! Laws of what modifications make of an object, as contracts: X.711, section 7.4.

ghost use Rattle.set_laws.specs.KeptMaps.{MapStaysGood, NameStaysGood, ObjectStaysGood};
ghost use Rattle.set_laws.specs.ModificationLaws.{IdentifiersStay, KindStays, MadeIsLeft, SizeStays, UnnamedStays};
ghost use Rattle.set_laws.specs.ModificationLaws.{ValuesStayShort};

/// An attribute that no modification names stands in the object as before, with its value. The one exception is
/// availabilityStatus of a log, out of which logFull may be taken. Does nothing.
pub fn unnamed_stay()
    ensures { UnnamedStays }
{}

/// An object has the same attributes as before, in their order, whatever modifications were made, and the class, the
/// name binding and the packages that it had. Does nothing.
pub fn same_kind_stays()
    ensures identifiers { IdentifiersStay }
    ensures kind { KindStays }
{}

/// A Set leaves at most one object, which is the one that the modifications make, under the name that it had. Does
/// nothing.
pub fn made_is_left()
    ensures { MadeIsLeft }
{}

/// An object of at most 16,384 octets has no more afterwards, and where each value that counts for its size has at most
/// 8,192, so it is afterwards. Does nothing.
pub fn limits_stay()
    ensures size { SizeStays }
    ensures values { ValuesStayShort }
{}

/// An object that obeys its templates does so afterwards: it has exactly the attributes of its packages, with values
/// that fit, are permitted and are not too long. One that may have its name may have it afterwards. Does nothing.
pub fn objects_stay_good()
    ensures object { ObjectStaysGood }
    ensures name { NameStaysGood }
{}

/// A Set of an object of a well-formed map leaves a well-formed map: what it changes is installed in place of what
/// stood there. Does nothing.
pub fn map_stays_good()
    ensures { MapStaysGood }
{}
