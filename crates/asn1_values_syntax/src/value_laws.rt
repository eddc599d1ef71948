//! What holds of each value and its tree (X.680, section 17.7).

ghost use Rattle.token_grammar.specs.PartLaws.{OneTreeBy, OneValue, OneValueBy};
ghost use Rattle.asn1_values_syntax.specs.Agreement.{PartsAgree, ValuesAgree};
ghost use Rattle.asn1_values_syntax.specs.NumberTrees.{bound_tree, signed_number_tree};
ghost use Rattle.asn1_values_syntax.specs.ValueTrees.{part_tree, value_tree};

/// No two values have one tree: those of one tree agree in all but the memory of their lists and boxes. Does
/// nothing.
pub fn one_value()
    ensures number { OneValue signed_number_tree }
    ensures bound { OneValue bound_tree }
    ensures value { OneValueBy ValuesAgree value_tree }
    ensures part { OneValueBy PartsAgree part_tree }
{}

/// Values that agree have one tree. Does nothing.
pub fn one_tree()
    ensures value { OneTreeBy ValuesAgree value_tree }
    ensures part { OneTreeBy PartsAgree part_tree }
{}
