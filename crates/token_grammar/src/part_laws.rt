//! What holds of each part of a template and its tree (X.722, section 8.2).

ghost use Rattle.token_grammar.specs.Form.{Leaf};
ghost use Rattle.token_grammar.specs.Parts.{arc_tree, document_name_tree, first_arc_tree, label_reference_tree};
ghost use Rattle.token_grammar.specs.Parts.{object_identifier_tree, qualified_name_tree};
ghost use Rattle.token_grammar.specs.PartLaws.{IdentifiersAgree, OneTreeBy, OneValue, OneValueBy};

/// No two values of a part have one tree. Two object identifiers of one tree agree in all but the memory
/// of their arcs. Does nothing.
pub fn one_value()
    ensures token { OneValue Leaf }
    ensures document_name { OneValue document_name_tree }
    ensures label_reference { OneValue label_reference_tree }
    ensures qualified_name { OneValue qualified_name_tree }
    ensures arc { OneValue arc_tree }
    ensures first_arc { OneValue first_arc_tree }
    ensures object_identifier { OneValueBy IdentifiersAgree object_identifier_tree }
{}

/// Object identifiers that agree have one tree. Does nothing.
pub fn one_tree()
    ensures { OneTreeBy IdentifiersAgree object_identifier_tree }
{}
