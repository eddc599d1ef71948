//! What holds of each section and its tree (docs/PROFILE.md, section 9).

ghost use Rattle.token_grammar.specs.PartLaws.{OneTreeBy, OneValueBy};
ghost use Rattle.extra_syntax.specs.Agreement.{AssignmentsAgree, InstancesAgree, RulesAgree, SectionsAgree, StepsAgree};
ghost use Rattle.extra_syntax.specs.SectionTrees.{assignment_tree, instance_tree, rule_tree, section_tree, step_tree};

/// No two sections have one tree: those of one tree agree in all but the memory of their lists and values. Does
/// nothing.
pub fn one_value()
    ensures section { OneValueBy SectionsAgree section_tree }
    ensures rule { OneValueBy RulesAgree rule_tree }
    ensures step { OneValueBy StepsAgree step_tree }
    ensures instance { OneValueBy InstancesAgree instance_tree }
    ensures assignment { OneValueBy AssignmentsAgree assignment_tree }
{}

/// Sections that agree have one tree. Does nothing.
pub fn one_tree()
    ensures section { OneTreeBy SectionsAgree section_tree }
    ensures rule { OneTreeBy RulesAgree rule_tree }
    ensures step { OneTreeBy StepsAgree step_tree }
    ensures instance { OneTreeBy InstancesAgree instance_tree }
    ensures assignment { OneTreeBy AssignmentsAgree assignment_tree }
{}
