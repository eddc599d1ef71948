//! What holds of each template of a package's member and its tree (X.722, section 8).

ghost use Rattle.token_grammar.specs.PartLaws.{OneTreeBy, OneValue, OneValueBy};
ghost use Rattle.gdmo_members.specs.Trees.{behaviour_tree, behaviour_reference_tree};
ghost use Rattle.gdmo_members.specs.MemberTrees.{attribute_tree, attribute_reference_tree, parameter_tree};
ghost use Rattle.gdmo_members.specs.MemberTrees.{parameter_reference_tree};
ghost use Rattle.gdmo_members.specs.FurtherTrees.{action_tree, group_tree, notification_tree};
ghost use Rattle.gdmo_members.specs.MemberTree.{member_tree};
ghost use Rattle.gdmo_members.specs.Agreement.{ActionsAgree, AttributesAgree, AttributeReferencesAgree, GroupsAgree};
ghost use Rattle.gdmo_members.specs.Agreement.{MembersAgree, NotificationsAgree, ParametersAgree};
ghost use Rattle.gdmo_members.specs.Agreement.{ParameterReferencesAgree};

/// No two templates have one tree: those of one tree agree in all but the memory of their lists and of their
/// templates in line. Does nothing.
pub fn one_value()
    ensures member { OneValueBy MembersAgree member_tree }
    ensures behaviour { OneValue behaviour_tree }
    ensures attribute { OneValueBy AttributesAgree attribute_tree }
    ensures parameter { OneValueBy ParametersAgree parameter_tree }
    ensures group { OneValueBy GroupsAgree group_tree }
    ensures action { OneValueBy ActionsAgree action_tree }
    ensures notification { OneValueBy NotificationsAgree notification_tree }
    ensures behaviour_reference { OneValue behaviour_reference_tree }
    ensures attribute_reference { OneValueBy AttributeReferencesAgree attribute_reference_tree }
    ensures parameter_reference { OneValueBy ParameterReferencesAgree parameter_reference_tree }
{}

/// Templates that agree have one tree. Does nothing.
pub fn one_tree()
    ensures member { OneTreeBy MembersAgree member_tree }
    ensures attribute { OneTreeBy AttributesAgree attribute_tree }
    ensures parameter { OneTreeBy ParametersAgree parameter_tree }
    ensures group { OneTreeBy GroupsAgree group_tree }
    ensures action { OneTreeBy ActionsAgree action_tree }
    ensures notification { OneTreeBy NotificationsAgree notification_tree }
    ensures attribute_reference { OneTreeBy AttributeReferencesAgree attribute_reference_tree }
    ensures parameter_reference { OneTreeBy ParameterReferencesAgree parameter_reference_tree }
{}
