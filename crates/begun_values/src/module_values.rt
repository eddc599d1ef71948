//! The first names in the values that modules assign, and in those that stand behind DEFAULT (X.680, sections 16 and
//! 25; docs/PROFILE.md, section 12).

ghost use Rattle.std.specs.Prelude.{◌≡◌, ℕ, List, IfSome, OnOk};
ghost use Rattle.asn1_names.specs.AssignmentNumbers.{assignment_count};
ghost use Rattle.asn1_names.specs.CodeMeanings.{IsAssignment};
ghost use Rattle.asn1_names.specs.DenotedSyntax.{Denotes};
ghost use Rattle.asn1_names.specs.ModuleTerms.{ModuleTerm, TypeTerm};
ghost use Rattle.asn1_names.specs.Occurrences.{type_assigned};
ghost use Rattle.asn1_names.specs.TermViews.{assigned_term, assignment_term, module_terms, type_term};
ghost use Rattle.asn1_values_syntax.specs.ValueTrees.{value_tree};
ghost use Rattle.gdmo_begun_names.specs.BegunMarks.{Marks};
ghost use Rattle.begun_values.specs.DefaultNames.{DefaultFirsts, DenotedFirsts};
ghost use Rattle.begun_values.specs.MeantSyntaxes.{BeginsOf, MeansType};
ghost use Rattle.begun_values.specs.ModuleValues.{AreResolved, AssignedFirsts, BelowFirsts, DefaultFirstsAt};
ghost use Rattle.begun_values.specs.ModuleValues.{IsAssignedValue, IsBareName, IsLast, IsNameOf, ModuleFirsts};

use crate::default_values::{have_names, mark_type_defaults};
use crate::meant_values::{mark_maybe, mark_meant};
use crate::resolved_modules::ResolvedModules;
use asn1_names::name_tables::{Meaning, NameTables, type_of};
use asn1_syntax::module::{Assigned, Assignment};
use asn1_syntax::plain_type::{PlainType, TypeName};
use asn1_syntax::type_text::TypeText;
use asn1_types::Types;
use asn1_values_syntax::value::ValueText;
use gdmo_begun_names::begun_names::BegunNames;
use std::alloc::{AllocError, Global};
use term_values::Syntax;

/// The syntax of the assigned type that was asked for last, and the number of its assignment.
#[derive(Drop)]
struct LastSyntax {
    /// The number.
    target: usize,
    /// The syntax.
    syntax: Option<Syntax>,
}

/// The name that a type is, without constraints.
fn bare_name(of: &TypeText) -> Option<&TypeName>
    ensures { IfSome result (λ name. IsBareName (type_term of.now) name.now) }
{
    match of {
        TypeText::Plain { of, constraints } => match of {
            PlainType::Named(name) => {
                if constraints.as_slice().is_empty() {
                    Some(name)
                } else {
                    None
                }
            }
            PlainType::Simple(_) => None,
            PlainType::Integer(_) => None,
            PlainType::Enumerated(_) => None,
            PlainType::BitString(_) => None,
            PlainType::OctetString(_) => None,
            PlainType::ObjectIdentifier(_) => None,
            PlainType::Any(_) => None,
        },
        TypeText::Tagged { .. } => None,
        TypeText::Structured { .. } => None,
        TypeText::Choice { .. } => None,
    }
}

/// The number of the assigned type of which a type is the name, without constraints.
fn named_target(tables: &NameTables, home: usize, of: &TypeText) -> Option<usize>
    ensures { IfSome result (λ target. IsNameOf (module_terms tables.now) home (type_term of.now) target) }
{
    match bare_name(of) {
        Some(name) => match tables.reference_meaning(home, name) {
            Meaning::TypeAt(target) => Some(target),
            Meaning::ValueAt(_) => None,
            Meaning::Standard(_) => None,
            Meaning::Nothing => None,
        },
        None => None,
    }
}

/// Asks for the syntax of an assigned type, where it isn't the one that was asked for last.
fn keep_syntax(
    modules: &ResolvedModules,
    target: usize,
    last: &mut LastSyntax,
) -> Result<(), AllocError>
    ensures kept { OnOk result (IsLast (module_terms modules.now.types.now) last.old →
        IsLast (module_terms modules.now.types.now) last.new) }
    ensures asked { OnOk result (last.new.target ≡ target) }
{
    if last.target == target {
        return Ok(());
    }
    let syntax = modules
        .types
        .syntax(modules.alloc, Meaning::TypeAt(target))?;
    *last = LastSyntax { target, syntax };
    Ok(())
}

/// Marks the names in a value of an assigned type.
fn mark_named(
    modules: &ResolvedModules,
    target: usize,
    value: &ValueText,
    last: &mut LastSyntax,
    names: &mut BegunNames,
) -> Result<(), AllocError>
    ensures kept { OnOk result (IsLast (module_terms modules.now.types.now) last.old →
        IsLast (module_terms modules.now.types.now) last.new) }
    ensures marked { OnOk result ((m : ℕ) (of : TypeTerm) → IsLast (module_terms modules.now.types.now) last.old →
        IsNameOf (module_terms modules.now.types.now) m of target →
        Marks (BeginsOf (Denotes (module_terms modules.now.types.now) m of) (value_tree value.now)) names.old
        names.new) }
{
    keep_syntax(modules, target, last)?;
    mark_maybe(names, value, &last.syntax);
    Ok(())
}

/// Marks the names in a value that is assigned.
fn mark_standing(
    modules: &ResolvedModules,
    number: usize,
    home: usize,
    of: &TypeText,
    value: &ValueText,
    last: &mut LastSyntax,
    names: &mut BegunNames,
) -> Result<(), AllocError>
    ensures kept { OnOk result (IsLast (module_terms modules.now.types.now) last.old →
        IsLast (module_terms modules.now.types.now) last.new) }
    ensures marked { OnOk result ((ms : List ModuleTerm) → AreResolved ms modules.now → IsLast ms last.old →
        IsAssignedValue ms number home (type_term of.now) (value_tree value.now) →
        Marks (BeginsOf (Denotes ms home (type_term of.now)) (value_tree value.now)) names.old names.new) }
{
    match named_target(modules.tables, home, of) {
        Some(target) => mark_named(modules, target, value, last, names),
        None => mark_meant(
            modules.alloc,
            modules.types,
            Meaning::ValueAt(number),
            value,
            names,
        ),
    }
}

/// The same, where names may stand in it.
fn mark_value(
    modules: &ResolvedModules,
    number: usize,
    home: usize,
    of: &TypeText,
    value: &ValueText,
    last: &mut LastSyntax,
    names: &mut BegunNames,
) -> Result<(), AllocError>
    ensures kept { OnOk result (IsLast (module_terms modules.now.types.now) last.old →
        IsLast (module_terms modules.now.types.now) last.new) }
    ensures marked { OnOk result ((ms : List ModuleTerm) → AreResolved ms modules.now → IsLast ms last.old →
        IsAssignedValue ms number home (type_term of.now) (value_tree value.now) →
        Marks (BeginsOf (Denotes ms home (type_term of.now)) (value_tree value.now)) names.old names.new) }
{
    if names.may_stand_in(value) {
        mark_standing(modules, number, home, of, value, last, names)
    } else {
        Ok(())
    }
}

/// Marks the names in the value of the assignment with a number.
fn mark_number(
    modules: &ResolvedModules,
    number: usize,
    last: &mut LastSyntax,
    names: &mut BegunNames,
) -> Result<(), AllocError>
    ensures kept { OnOk result (IsLast (module_terms modules.now.types.now) last.old →
        IsLast (module_terms modules.now.types.now) last.new) }
    ensures marked { OnOk result ((ms : List ModuleTerm) → AreResolved ms modules.now → IsLast ms last.old →
        Marks (AssignedFirsts ms number) names.old names.new) }
{
    match modules.tables.assignment(number) {
        Some((home, assignment)) => match &assignment.assigned {
            Assigned::OfType(_) => Ok(()),
            Assigned::OfValue { of, value, .. } => {
                mark_value(modules, number, home, of, value, last, names)
            }
        },
        None => Ok(()),
    }
}

/// Marks the names in the values that are assigned. The syntax of a type is kept while values of this type follow each
/// other.
fn mark_all_numbers(
    modules: &ResolvedModules,
    last: &mut LastSyntax,
    names: &mut BegunNames,
) -> Result<(), AllocError>
    ensures { OnOk result ((ms : List ModuleTerm) → AreResolved ms modules.now → IsLast ms last.old →
        Marks (BelowFirsts (AssignedFirsts ms) (assignment_count ms)) names.old names.new) }
{
    for number in 0..modules.tables.count() {
        mark_number(modules, number, last, names)?;
    }
    Ok(())
}

/// Marks the names in the values that are assigned.
fn mark_assigned(modules: &ResolvedModules, names: &mut BegunNames) -> Result<(), AllocError>
    ensures { OnOk result ((ms : List ModuleTerm) → AreResolved ms modules.now →
        Marks (BelowFirsts (AssignedFirsts ms) (assignment_count ms)) names.old names.new) }
{
    let mut last = LastSyntax {
        target: modules.tables.count(),
        syntax: None,
    };
    mark_all_numbers(modules, &mut last, names)
}

/// What an assignment means, by its number.
fn own_meaning(assignment: &Assignment, number: usize) -> Meaning
    ensures { (ms : List ModuleTerm) (m : ℕ) → IsAssignment ms number m (assignment_term assignment.now) →
        MeansType ms m (type_assigned (assigned_term assignment.now.assigned)) result }
{
    match &assignment.assigned {
        Assigned::OfType(_) => Meaning::TypeAt(number),
        Assigned::OfValue { .. } => Meaning::ValueAt(number),
    }
}

/// Marks the names in the values behind DEFAULT, in the type of an assignment.
fn mark_own_defaults(
    modules: &ResolvedModules,
    number: usize,
    assignment: &Assignment,
    names: &mut BegunNames,
) -> Result<(), AllocError>
    ensures { OnOk result ((ms : List ModuleTerm) (m : ℕ) → AreResolved ms modules.now →
        IsAssignment ms number m (assignment_term assignment.now) →
        Marks (DefaultFirsts (DenotedFirsts ms m) (type_assigned (assigned_term assignment.now.assigned))) names.old
        names.new) }
{
    let of = type_of(assignment);
    if have_names(names, of) {
        mark_type_defaults(modules, own_meaning(assignment, number), of, names)
    } else {
        Ok(())
    }
}

/// The same of the assignment with a number.
fn mark_defaults_at(
    modules: &ResolvedModules,
    number: usize,
    names: &mut BegunNames,
) -> Result<(), AllocError>
    ensures { OnOk result ((ms : List ModuleTerm) → AreResolved ms modules.now →
        Marks (DefaultFirstsAt ms number) names.old names.new) }
{
    match modules.tables.assignment(number) {
        Some((_, assignment)) => mark_own_defaults(modules, number, assignment, names),
        None => Ok(()),
    }
}

/// Marks the names in the values behind DEFAULT.
fn mark_all_defaults(modules: &ResolvedModules, names: &mut BegunNames) -> Result<(), AllocError>
    ensures { OnOk result ((ms : List ModuleTerm) → AreResolved ms modules.now →
        Marks (BelowFirsts (DefaultFirstsAt ms) (assignment_count ms)) names.old names.new) }
{
    for number in 0..modules.tables.count() {
        mark_defaults_at(modules, number, names)?;
    }
    Ok(())
}

/// Marks the names in the values of modules.
fn mark_both(modules: &ResolvedModules, names: &mut BegunNames) -> Result<(), AllocError>
    ensures { OnOk result ((ms : List ModuleTerm) → AreResolved ms modules.now →
        Marks (ModuleFirsts ms) names.old names.new) }
{
    mark_assigned(modules, names)?;
    mark_all_defaults(modules, names)
}

/// Marks the names in the values of modules. The tables and the types are those of the same modules.
pub fn mark_module_values(
    alloc: Global,
    tables: &NameTables,
    types: &Types,
    names: &mut BegunNames,
) -> Result<(), AllocError>
    ensures { OnOk result ((ms : List ModuleTerm) → module_terms tables.now ≡ ms → module_terms types.now ≡ ms →
        Marks (ModuleFirsts ms) names.old names.new) }
{
    let modules = ResolvedModules {
        alloc,
        tables,
        types,
    };
    mark_both(&modules, names)
}
