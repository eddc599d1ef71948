//! Which assigned types are named in the types of assignments, and which contain themselves (X.680, section 16;
//! docs/PROFILE.md, section 11).

ghost use Rattle.std.specs.Prelude.{IfOk, List, OnOk};
ghost use Rattle.link_graphs.specs.Leading.{target_lists};
ghost use Rattle.asn1_names.specs.CodeMeanings.{named_module, named_type};
ghost use Rattle.asn1_names.specs.ModuleTerms.{LimitTerm};
ghost use Rattle.asn1_names.specs.ModuleTerms.TypeTerm.{Reference};
ghost use Rattle.asn1_names.specs.TermViews.{module_terms, plain_term, type_term};
ghost use Rattle.asn1_numbers.specs.NamedTargets.{AddsNamed, AreTargets, IsTypeGraph};
ghost use Rattle.asn1_numbers.specs.NumberedTypes.{IsBehindNamed, MarkCyclic};

use asn1_names::name_tables::{Meaning, NameTables};
use asn1_syntax::plain_type::{PlainType, TypeName};
use asn1_syntax::type_text::{StructureText, TypeText};
use link_graphs::{Cycles, Graph, find_cycles};
use std::alloc::{AllocError, Global};

/// Appends the assigned type that a name is.
fn push_target(
    tables: &NameTables,
    home: usize,
    name: &TypeName,
    targets: &mut Vec<usize>,
) -> Result<(), AllocError>
    ensures { (limits : List LimitTerm) → OnOk result (AddsNamed (module_terms tables.now) home
        (Reference (named_module name.now) (named_type name.now) limits) targets.old.items targets.new.items) }
{
    match tables.reference_meaning(home, name) {
        Meaning::TypeAt(number) => {
            targets.push(number)?;
            Ok(())
        }
        Meaning::ValueAt(_) => Ok(()),
        Meaning::Standard(_) => Ok(()),
        Meaning::Nothing => Ok(()),
    }
}

/// Appends the assigned types that are named in a type which holds no other.
fn push_plain_targets(
    tables: &NameTables,
    home: usize,
    of: &PlainType,
    targets: &mut Vec<usize>,
) -> Result<(), AllocError>
    ensures { (limits : List LimitTerm) → OnOk result (AddsNamed (module_terms tables.now) home
        (plain_term of.now limits) targets.old.items targets.new.items) }
{
    match of {
        PlainType::Named(name) => push_target(tables, home, name, targets),
        PlainType::Simple(_) => Ok(()),
        PlainType::Integer(_) => Ok(()),
        PlainType::Enumerated(_) => Ok(()),
        PlainType::BitString(_) => Ok(()),
        PlainType::OctetString(_) => Ok(()),
        PlainType::ObjectIdentifier(_) => Ok(()),
        PlainType::Any(_) => Ok(()),
    }
}

/// Appends the assigned types that are named in a type.
fn push_targets(
    tables: &NameTables,
    home: usize,
    of: &TypeText,
    targets: &mut Vec<usize>,
) -> Result<(), AllocError>
    ensures { OnOk result (AddsNamed (module_terms tables.now) home (type_term of.now) targets.old.items
        targets.new.items) }
{
    match of {
        TypeText::Tagged { of: inner, .. } => push_targets(tables, home, inner, targets),
        TypeText::Structured { content, .. } => match content {
            StructureText::Components { components, .. } => {
                let Some(components) = components else {
                    return Ok(());
                };
                for component in components.iter() {
                    push_targets(tables, home, &component.of, targets)?;
                }
                Ok(())
            }
            StructureText::ListOf { of: inner, .. } => push_targets(tables, home, inner, targets),
        },
        TypeText::Choice { alternatives, .. } => {
            for alternative in alternatives.iter() {
                push_targets(tables, home, &alternative.of, targets)?;
            }
            Ok(())
        }
        TypeText::Plain { of: plain, .. } => push_plain_targets(tables, home, plain, targets),
    }
}

/// The assigned types to which an assignment leads.
fn targets_at(alloc: Global, tables: &NameTables, number: usize) -> Result<Vec<usize>, AllocError>
    ensures { IfOk result (λ targets. AreTargets (module_terms tables.now) number targets.items) }
{
    let mut targets = Vec::new(alloc);
    if let Some((home, of)) = tables.type_at(number) {
        push_targets(tables, home, of, &mut targets)?;
    }
    Ok(targets)
}

/// To which assigned types each assignment leads.
fn graph_of(alloc: Global, tables: &NameTables) -> Result<Graph, AllocError>
    ensures { IfOk result (λ graph. IsTypeGraph (module_terms tables.now) (target_lists graph)) }
{
    let mut targets = Vec::new(alloc);
    for number in 0..tables.count() {
        targets.push(targets_at(alloc, tables, number)?)?;
    }
    Ok(Graph { targets })
}

/// Which assigned types contain themselves, and an order of all assignments in which each of the others stands behind
/// those of the types that its type names.
pub fn contained_types(alloc: Global, tables: &NameTables) -> Result<Cycles, AllocError>
    ensures cyclic { IfOk result (λ cycles. MarkCyclic (module_terms tables.now) cycles.cyclic.items) }
    ensures order { IfOk result (λ cycles. IsBehindNamed (module_terms tables.now) cycles.order.items) }
{
    let graph = graph_of(alloc, tables)?;
    find_cycles(alloc, &graph)
}
