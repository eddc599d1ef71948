//! Laws of the packages of objects, as contracts: X.722, sections 5.2 and 8.3.

ghost use Rattle.package_laws.specs.PackageLaws.{AboveIsListed, AttributeIsListed, ListedHasAttribute};
ghost use Rattle.package_laws.specs.PackageLaws.{ListedHasPackage, ListedIsAbove, PackageIsListed};

/// Each class that is listed is the class itself or one from which it derives, directly or not, and where each class
/// has one record, each such class is listed. Does nothing.
pub fn listed_are_above()
    ensures above { ListedIsAbove }
    ensures listed { AboveIsListed }
{}

/// An object has each package that is listed for it, and where each class has one record, each package that it has is
/// listed. Does nothing.
pub fn listed_are_packages()
    ensures has { ListedHasPackage }
    ensures listed { PackageIsListed }
{}

/// An object has each attribute that is listed for it, and where each class has one record, each attribute that it has
/// is listed. Does nothing.
pub fn listed_are_attributes()
    ensures has { ListedHasAttribute }
    ensures listed { AttributeIsListed }
{}
