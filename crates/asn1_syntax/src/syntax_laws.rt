//! What holds of each type, each module and its tree (X.680, sections 13 to 51).

ghost use Rattle.token_grammar.specs.PartLaws.{OneTreeBy, OneValue, OneValueBy};
ghost use Rattle.asn1_values_syntax.specs.ConstraintTrees.{constraint_tree, range_tree};
ghost use Rattle.asn1_syntax.specs.ModuleTrees.{assignment_tree, module_tree};
ghost use Rattle.asn1_values_syntax.specs.NamedNumberTrees.{named_bit_tree, named_integer_tree, tag_tree};
ghost use Rattle.asn1_syntax.specs.PlainTrees.{plain_type_tree};
ghost use Rattle.asn1_syntax.specs.PresenceTree.{presence_tree};
ghost use Rattle.asn1_syntax.specs.TypeTrees.{alternative_tree, component_tree, type_tree};
ghost use Rattle.asn1_syntax.specs.ModuleAgreement.{AssignmentsAgree, ModulesAgree};
ghost use Rattle.asn1_syntax.specs.TypeAgreement.{AlternativesAgree, ComponentsAgree, ConstraintsAgree};
ghost use Rattle.asn1_syntax.specs.TypeAgreement.{PlainTypesAgree, PresencesAgree, TypesAgree};

/// No two types have one tree, nor have two modules: those of one tree agree in all but the memory of their lists
/// and boxes. Does nothing.
pub fn one_value()
    ensures module_text { OneValueBy ModulesAgree module_tree }
    ensures assignment { OneValueBy AssignmentsAgree assignment_tree }
    ensures type_text { OneValueBy TypesAgree type_tree }
    ensures component { OneValueBy ComponentsAgree component_tree }
    ensures alternative { OneValueBy AlternativesAgree alternative_tree }
    ensures presence { OneValueBy PresencesAgree presence_tree }
    ensures plain_type { OneValueBy PlainTypesAgree plain_type_tree }
    ensures constraint { OneValueBy ConstraintsAgree constraint_tree }
    ensures range { OneValue range_tree }
    ensures named_integer { OneValue named_integer_tree }
    ensures named_bit { OneValue named_bit_tree }
    ensures tag { OneValue tag_tree }
{}

/// Types that agree have one tree, and so have modules. Does nothing.
pub fn one_tree()
    ensures module_text { OneTreeBy ModulesAgree module_tree }
    ensures assignment { OneTreeBy AssignmentsAgree assignment_tree }
    ensures type_text { OneTreeBy TypesAgree type_tree }
    ensures component { OneTreeBy ComponentsAgree component_tree }
    ensures alternative { OneTreeBy AlternativesAgree alternative_tree }
    ensures presence { OneTreeBy PresencesAgree presence_tree }
    ensures plain_type { OneTreeBy PlainTypesAgree plain_type_tree }
    ensures constraint { OneTreeBy ConstraintsAgree constraint_tree }
{}
