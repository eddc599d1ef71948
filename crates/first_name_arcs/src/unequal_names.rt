//! First names to which modules give unequal arcs (X.680, section 32; docs/PROFILE.md, section 12).

ghost use Rattle.std.specs.Prelude.{◌≡◌, ◌⊎◌, ℕ, List, IfNone, IfOk, IfSome, OnOk, None, Some, false, get_or, option_map};
ghost use Rattle.std.specs.Prelude.{slice_get};
ghost use Rattle.asn1_names.specs.FirstNames.{found};
ghost use Rattle.gdmo_first_names.specs.DefinedNames.{AreDefined, AreDefiners, DefinesAt};
ghost use Rattle.gdmo_first_names.specs.ReadModules.{AreWhole, HasModules};
ghost use Rattle.gdmo_names.specs.FaultSets.{Notes};
ghost use Rattle.gdmo_names.specs.InStep.{AreEach};
ghost use Rattle.gdmo_names.specs.PartTerms.{PartTerms};
ghost use Rattle.identifier_arcs.specs.KnownArcs.{AreKnown};
ghost use Rattle.first_name_arcs.specs.BegunFirst.{AreBegun, TellsBegun};
ghost use Rattle.first_name_arcs.specs.UnequalNames.{TellsGiven, UnequalNames};

use crate::given_arcs::{GivenArcs, note_unequal_given};
use asn1_names::name_tables::NameTables;
use asn1_syntax::module::Module;
use gdmo_names::first_fault::Faults;
use identifier_arcs::known_arcs::KnownArcs;
use indexmap::IndexMap;
use std::alloc::{AllocError, Global};
use token_grammar::Token;

/// Whether something begins with the name that an assignment defines.
pub(crate) fn is_begun(begun: &[bool], number: usize) -> bool
    ensures { result ≡ get_or begun.now number false }
{
    match begun.get(number) {
        Some(mark) => *mark,
        None => false,
    }
}

/// The number of the assignment by which the first module that defines a name does.
fn definer(defined: &IndexMap<&[u8], usize>, name: &[u8]) -> Option<usize>
    ensures { result ≡ found defined.now name.now }
{
    defined.get(name).copied()
}

/// That number, if something begins with the name.
fn begun_first(defined: &IndexMap<&[u8], usize>, begun: &[bool], name: &[u8]) -> Option<usize>
    ensures { (parts : PartTerms) → AreDefined parts defined.now → AreBegun parts begun.now →
        TellsBegun parts name.now result }
{
    match definer(defined, name) {
        Some(number) => {
            if is_begun(begun, number) {
                Some(number)
            } else {
                None
            }
        }
        None => None,
    }
}

/// The arcs that an assignment gives, where both numbers are there.
fn given_by<'a>(
    document: u32,
    name: &'a Token,
    first: Option<usize>,
    list: Option<usize>,
) -> Option<GivenArcs<'a>>
    ensures none { IfNone result ((first ≡ None) ⊎ (list ≡ None)) }
    ensures some { IfSome result (λ own. (first ≡ Some own.first) × (list ≡ Some own.list)
        × (own.document ≡ document) × (own.name.now ≡ name.now)) }
{
    match (first, list) {
        (Some(first), Some(list)) => Some(GivenArcs {
            first,
            list,
            document,
            name,
        }),
        _ => None,
    }
}

/// The module at a place.
fn module_at<'a>(tables: &NameTables<'a>, home: usize) -> Option<&'a Module>
    ensures { option_map (λ x. x.now) result ≡ slice_get tables.now home }
{
    tables.modules().get(home)
}

/// The arcs that the assignment with a number gives to the first name that it defines.
fn given_at<'a>(
    tables: &NameTables<'a>,
    known: &KnownArcs,
    begun: &[bool],
    number: usize,
) -> Option<GivenArcs<'a>>
    ensures { (parts : PartTerms) → HasModules parts tables.now → AreKnown parts known.now → AreWhole parts →
        AreBegun parts begun.now → (name : List ℕ) → DefinesAt parts name number →
        TellsGiven parts known.now.numbers.lists number result }
{
    let Some((home, assignment)) = tables.assignment(number) else {
        return None;
    };
    let Some(module) = module_at(tables, home) else {
        return None;
    };
    let first = begun_first(known.defined, begun, assignment.name.text.as_slice());
    let list = known.of_value(number);
    given_by(module.document, &assignment.name, first, list)
}

/// The arcs that all definers give.
fn all_given<'a>(
    alloc: Global,
    tables: &NameTables<'a>,
    known: &KnownArcs,
    begun: &[bool],
    definers: &[usize],
) -> Result<Vec<Option<GivenArcs<'a>>>, AllocError>
    ensures { IfOk result (λ given. (parts : PartTerms) → HasModules parts tables.now → AreKnown parts known.now →
        AreWhole parts → AreBegun parts begun.now → AreDefiners parts definers.now →
        AreEach (TellsGiven parts known.now.numbers.lists) definers.now given.items) }
{
    let mut given = Vec::new(alloc);
    for number in definers.iter() {
        given.push(given_at(tables, known, begun, *number))?;
    }
    Ok(given)
}

/// Notes where modules give other arcs to a first name than an earlier one, if some identifier or value begins with the
/// name. `definers` are the assignments that define first names, in order, and `begun` tells with which of the names,
/// by the first assignment that defines it, something begins.
pub fn note_unequal(
    alloc: Global,
    tables: &NameTables,
    definers: &[usize],
    known: &KnownArcs,
    begun: &[bool],
    faults: &mut Faults,
) -> Result<(), AllocError>
    ensures { OnOk result ((parts : PartTerms) → HasModules parts tables.now → AreDefiners parts definers.now →
        AreKnown parts known.now → AreWhole parts → AreBegun parts begun.now →
        Notes (UnequalNames parts) faults.old.first faults.new.first) }
{
    known.numbers.lists.has_each_once();
    let given = all_given(alloc, tables, known, begun, definers)?;
    note_unequal_given(alloc, given.as_slice(), faults)
}
