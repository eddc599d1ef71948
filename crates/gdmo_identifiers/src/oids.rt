//! Lists of arcs that are object identifiers (X.660, clause 7).

ghost use Rattle.std.specs.Prelude.{◌≡◌, ℕ, List, IfOk};
ghost use Rattle.gdmo_names.specs.FirstNames.{are_identifier};
ghost use Rattle.gdmo_names.specs.PartTerms.{PartTerms};
ghost use Rattle.gdmo_names.specs.TemplateTerms.{IdentifierTerm};
ghost use Rattle.identifier_arcs.specs.KnownArcs.{TellsArcs};
ghost use Rattle.key_numbers.specs.NumberedLists.{IsList};
ghost use Rattle.gdmo_identifiers.specs.IdentifierTables.{TellsIdentifier, TellsNarrow, TellsOid};

use key_numbers::number_lists::NumberLists;
use std::alloc::{AllocError, Global};
use term_values::Oid;
use term_values::oid::MOST_ARCS;

/// Arcs are below this number: they have 32 bits.
const PAST_ARCS: u64 = 4_294_967_296;

/// Numbers of 32 bits; none where one is greater.
fn narrow(alloc: Global, numbers: &[u64]) -> Result<Option<Vec<u32>>, AllocError>
    ensures { IfOk result (λ told. TellsNarrow numbers.now told) }
{
    let mut arcs = Vec::new(alloc);
    for number in numbers {
        if *number >= PAST_ARCS {
            return Ok(None);
        }
        arcs.push(*number as u32)?;
    }
    Ok(Some(arcs))
}

/// The object identifier of these arcs, where they are one.
fn oid_of(alloc: Global, numbers: &[u64]) -> Result<Option<Oid>, AllocError>
    ensures { IfOk result (λ told. TellsOid numbers.now told) }
{
    match narrow(alloc, numbers)? {
        Some(arcs) => Ok(Oid::from_arcs(arcs)),
        None => Ok(None),
    }
}

/// The object identifier of a list of arcs, where they are one.
fn list_oid(alloc: Global, lists: &NumberLists, list: usize) -> Result<Option<Oid>, AllocError>
    ensures { IfOk result (λ told. (arcs : List ℕ) → IsList lists.now list arcs → TellsOid arcs told) }
{
    match lists.numbers(list, MOST_ARCS)? {
        Some(numbers) => oid_of(alloc, numbers.as_slice()),
        None => Ok(None),
    }
}

/// The object identifier that an identifier is, by the list of its arcs.
pub fn identifier_oid(
    alloc: Global,
    lists: &NumberLists,
    list: Option<usize>,
) -> Result<Option<Oid>, AllocError>
    ensures { IfOk result (λ told. (parts : PartTerms) (x : IdentifierTerm) → TellsArcs parts lists.now x list →
        TellsIdentifier parts x told) }
{
    match list {
        Some(list) => list_oid(alloc, lists, list),
        None => Ok(None),
    }
}
