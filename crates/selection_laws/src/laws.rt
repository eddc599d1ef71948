//! What operations select, as a contract: X.711, section 7.5, types Scope and CMISFilter.

ghost use Rattle.selection_laws.specs.SelectionLaws.{ListHasSelected, SelectedRise};

/// The list of the names that an operation selects has the names in scope whose objects pass its filter, and no others,
/// and they rise by the order of names, each once. Does nothing.
pub fn selected_are_selected()
    ensures has { ListHasSelected }
    ensures rise { SelectedRise }
{}
