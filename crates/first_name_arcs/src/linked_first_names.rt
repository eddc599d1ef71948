//! For which arcs first names stand with which identifiers or values begin (X.680, section 32; docs/PROFILE.md,
//! section 12).

ghost use Rattle.std.specs.Prelude.{◌≡◌, ◌++◌, List, IfOk, MatchOption, OnOk, None, Some, map};
ghost use Rattle.asn1_syntax.specs.declared.module.Module.{Module};
ghost use Rattle.asn1_names.specs.AssignmentNumbers.{Numbered, numbered_at};
ghost use Rattle.gdmo_first_names.specs.DefinedNames.{AreDefiners};
ghost use Rattle.gdmo_first_names.specs.ReadModules.{AreWhole, HasModules};
ghost use Rattle.gdmo_linking.specs.LinkedTables.{TellFirstNames};
ghost use Rattle.gdmo_names.specs.PartTerms.{PartTerms, module_terms_of};
ghost use Rattle.identifier_arcs.specs.KnownArcs.{AreKnown};
ghost use Rattle.first_name_arcs.specs.BegunFirst.{AreBegun, IsBegunAt};
ghost use Rattle.first_name_arcs.specs.ToldNames.{TellsFew, TellsName, told_if, told_name};

use crate::unequal_names::is_begun;
use asn1_names::name_tables::NameTables;
use identifier_arcs::known_arcs::KnownArcs;
use linked_parts::linked::LinkedFirstName;
use std::alloc::{AllocError, Global};
use term_values::oid::MOST_ARCS;
use token_grammar::Token;
use token_grammar::token_reading::copy_token;

/// A first name and its arcs.
fn name_with(
    alloc: Global,
    name: &Token,
    arcs: Option<Vec<u64>>,
) -> Result<Option<LinkedFirstName>, AllocError>
    ensures { IfOk result (λ told. MatchOption told (arcs ≡ None) (λ x. (x.name ≡ name.now) × (arcs ≡ Some x.arcs))) }
{
    match arcs {
        Some(arcs) => Ok(Some(LinkedFirstName {
            name: copy_token(alloc, name)?,
            arcs,
        })),
        None => Ok(None),
    }
}

/// The arcs of the value of an assignment, if they are at most 64.
fn few_arcs(known: &KnownArcs, number: usize) -> Result<Option<Vec<u64>>, AllocError>
    ensures { IfOk result (λ told. (parts : PartTerms) (modules : List Module) → HasModules parts modules →
        AreKnown parts known.now → AreWhole parts → (x : Numbered) →
        numbered_at (module_terms_of parts) number ≡ Some x → TellsFew parts x told) }
{
    match known.of_value(number) {
        Some(list) => known.numbers.lists.numbers(list, MOST_ARCS),
        None => Ok(None),
    }
}

/// The first name that an assignment is the first to define, and its arcs.
fn name_at(
    alloc: Global,
    tables: &NameTables,
    known: &KnownArcs,
    number: usize,
) -> Result<Option<LinkedFirstName>, AllocError>
    ensures { IfOk result (λ told. (parts : PartTerms) → HasModules parts tables.now → AreKnown parts known.now →
        AreWhole parts → IsBegunAt parts number → TellsName parts number told) }
{
    match tables.assignment(number) {
        Some((_, assignment)) => name_with(alloc, &assignment.name, few_arcs(known, number)?),
        None => Ok(None),
    }
}

/// The same, if something begins with it.
fn begun_name(
    alloc: Global,
    tables: &NameTables,
    known: &KnownArcs,
    begun: &[bool],
    number: usize,
) -> Result<Option<LinkedFirstName>, AllocError>
    ensures { IfOk result (λ told. (parts : PartTerms) → HasModules parts tables.now → AreKnown parts known.now →
        AreWhole parts → AreBegun parts begun.now → TellsName parts number told) }
{
    if is_begun(begun, number) {
        name_at(alloc, tables, known, number)
    } else {
        Ok(None)
    }
}

/// Adds a name, where there is one.
fn push_some(
    names: &mut Vec<LinkedFirstName>,
    name: Option<LinkedFirstName>,
) -> Result<(), AllocError>
    ensures { OnOk result (names.new.items ≡ names.old.items ++ told_if name) }
{
    if let Some(name) = name {
        names.push(name)?;
    }
    Ok(())
}

/// The first names with which some identifier or value begins, and for which arcs each stands. `definers` are the
/// assignments that define first names, and `begun` tells with which of the names, by the first assignment that defines
/// it, something begins.
pub fn linked_first_names(
    alloc: Global,
    tables: &NameTables,
    definers: &[usize],
    known: &KnownArcs,
    begun: &[bool],
) -> Result<Vec<LinkedFirstName>, AllocError>
    ensures { IfOk result (λ names. (parts : PartTerms) → HasModules parts tables.now →
        AreDefiners parts definers.now → AreKnown parts known.now → AreWhole parts → AreBegun parts begun.now →
        TellFirstNames parts (map told_name names.items)) }
{
    let mut names = Vec::new(alloc);
    for number in definers.iter() {
        let name = begun_name(alloc, tables, known, begun, *number)?;
        push_some(&mut names, name)?;
    }
    Ok(names)
}
