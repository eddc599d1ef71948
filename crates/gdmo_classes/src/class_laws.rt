//! What holds of each template that holds others and its tree (X.722, sections 8.3, 8.4 and 8.6).

ghost use Rattle.token_grammar.specs.PartLaws.{OneTreeBy, OneValue, OneValueBy};
ghost use Rattle.gdmo_classes.specs.UseTrees.{group_reference_tree, action_reference_tree, notification_reference_tree};
ghost use Rattle.gdmo_classes.specs.UseTrees.{properties_tree};
ghost use Rattle.gdmo_classes.specs.PackageTrees.{package_tree, package_reference_tree};
ghost use Rattle.gdmo_classes.specs.ClassTrees.{class_tree, class_reference_tree};
ghost use Rattle.gdmo_classes.specs.BindingTrees.{name_binding_tree};
ghost use Rattle.gdmo_classes.specs.TemplateTree.{class_template_tree};
ghost use Rattle.gdmo_classes.specs.Agreement.{ActionReferencesAgree, ClassesAgree, ClassReferencesAgree};
ghost use Rattle.gdmo_classes.specs.Agreement.{GroupReferencesAgree, NameBindingsAgree, NotificationReferencesAgree};
ghost use Rattle.gdmo_classes.specs.Agreement.{PackagesAgree, PackageReferencesAgree, TemplatesAgree};

/// No two templates have one tree: those of one tree agree in all but the memory of their lists and of their
/// templates in line. Does nothing.
pub fn one_value()
    ensures template { OneValueBy TemplatesAgree class_template_tree }
    ensures class { OneValueBy ClassesAgree class_tree }
    ensures package { OneValueBy PackagesAgree package_tree }
    ensures name_binding { OneValueBy NameBindingsAgree name_binding_tree }
    ensures class_reference { OneValueBy ClassReferencesAgree class_reference_tree }
    ensures package_reference { OneValueBy PackageReferencesAgree package_reference_tree }
    ensures group_reference { OneValueBy GroupReferencesAgree group_reference_tree }
    ensures action_reference { OneValueBy ActionReferencesAgree action_reference_tree }
    ensures notification_reference { OneValueBy NotificationReferencesAgree notification_reference_tree }
    ensures properties { OneValue properties_tree }
{}

/// Templates that agree have one tree. Does nothing.
pub fn one_tree()
    ensures template { OneTreeBy TemplatesAgree class_template_tree }
    ensures class { OneTreeBy ClassesAgree class_tree }
    ensures package { OneTreeBy PackagesAgree package_tree }
    ensures name_binding { OneTreeBy NameBindingsAgree name_binding_tree }
    ensures class_reference { OneTreeBy ClassReferencesAgree class_reference_tree }
    ensures package_reference { OneTreeBy PackageReferencesAgree package_reference_tree }
    ensures group_reference { OneTreeBy GroupReferencesAgree group_reference_tree }
    ensures action_reference { OneTreeBy ActionReferencesAgree action_reference_tree }
    ensures notification_reference { OneTreeBy NotificationReferencesAgree notification_reference_tree }
{}
