//! Laws of matching and of filters, each as the contract of a function that does nothing.

ghost use Rattle.cmis_filter.specs.TruthLaws.{TestsTellMatches, TestsTellTruth};

/// The test of a matching rule that computes says whether two values match by the rule.
pub fn tests_tell_matches()
    ensures { TestsTellMatches }
{}

/// The test of a filter that computes says whether the filter is true of an object.
pub fn tests_tell_truth()
    ensures { TestsTellTruth }
{}
