//! How many nodes a type has, by those of the types that it names (docs/PROFILE.md, section 11).

ghost use Rattle.std.specs.Prelude.{◌≡◌, List, slice_get, unwrap_or};
ghost use Rattle.asn1_names.specs.CodeMeanings.{named_module, named_type};
ghost use Rattle.asn1_names.specs.ModuleTerms.{LimitTerm};
ghost use Rattle.asn1_names.specs.ModuleTerms.TypeTerm.{Reference};
ghost use Rattle.asn1_names.specs.TermViews.{module_terms, type_term};
ghost use Rattle.asn1_tags.specs.KnownFacts.{AreKnown, HasCount, KnowsNodes, is_marked};

use asn1_names::name_tables::{Meaning, NameTables};
use asn1_names::standard_module::standard_nodes;
use asn1_names::type_walk::name_of;
use asn1_syntax::plain_type::TypeName;
use asn1_syntax::type_text::{StructureText, TypeText};

/// What is known of the types that others name.
#[derive(Clone, Copy)]
pub(crate) struct KnownNodes<'f, 'a> {
    pub tables: &'f NameTables<'a>,
    /// For each assignment whether its type contains itself.
    pub cyclic: &'f [bool],
    /// The nodes of the types of assignments.
    pub nodes: &'f [usize],
}

/// Whether an assignment's type contains itself.
pub(crate) fn is_marked(cyclic: &[bool], number: usize) -> bool
    ensures { result ≡ is_marked cyclic.now number }
{
    match cyclic.get(number) {
        Some(mark) => *mark,
        None => false,
    }
}

/// The nodes of an assignment's type.
pub(crate) fn nodes_told(nodes: &[usize], number: usize) -> usize
    ensures { result ≡ unwrap_or (slice_get nodes.now number) 0 }
{
    match nodes.get(number) {
        Some(told) => *told,
        None => 0,
    }
}

/// The nodes of a type that is a name.
fn named_nodes(known: &KnownNodes, home: usize, name: &TypeName) -> usize
    ensures { (limits : List LimitTerm) → AreKnown (KnowsNodes (module_terms known.now.tables.now)
        known.now.nodes.now) (module_terms known.now.tables.now) known.now.cyclic.now home (Reference (named_module
        name.now) (named_type name.now) limits) →
        HasCount (module_terms known.now.tables.now) home
        (Reference (named_module name.now) (named_type name.now) limits) result }
{
    match known.tables.reference_meaning(home, name) {
        Meaning::TypeAt(number) => {
            if is_marked(known.cyclic, number) {
                0
            } else {
                nodes_told(known.nodes, number)
            }
        }
        Meaning::Standard(standard) => standard_nodes(standard),
        Meaning::ValueAt(_) => 0,
        Meaning::Nothing => 0,
    }
}

/// The nodes of a type: at most 2^64 - 1.
pub(crate) fn nodes_of(known: &KnownNodes, home: usize, of: &TypeText) -> usize
    ensures { AreKnown (KnowsNodes (module_terms known.now.tables.now) known.now.nodes.now)
        (module_terms known.now.tables.now) known.now.cyclic.now home (type_term of.now) → HasCount (module_terms
        known.now.tables.now) home (type_term of.now) result }
{
    match of {
        TypeText::Tagged { of, .. } => nodes_of(known, home, of).saturating_add(1),
        TypeText::Structured { content, .. } => match content {
            StructureText::Components { components, .. } => match components {
                Some(components) => {
                    let mut sum: usize = 1;
                    for component in components.iter() {
                        sum = sum.saturating_add(nodes_of(known, home, &component.of));
                    }
                    sum
                }
                None => 1,
            },
            StructureText::ListOf { of, .. } => nodes_of(known, home, of).saturating_add(1),
        },
        TypeText::Choice { alternatives, .. } => {
            let mut sum: usize = 1;
            for alternative in alternatives.iter() {
                sum = sum.saturating_add(nodes_of(known, home, &alternative.of));
            }
            sum
        }
        TypeText::Plain { .. } => match name_of(of) {
            Some(name) => named_nodes(known, home, name),
            None => 1,
        },
    }
}
