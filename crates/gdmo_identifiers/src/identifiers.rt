//! The identifiers of templates: which first names they have, which are object identifiers, and which are registered
//! twice (X.660, annex A; X.680, section 32; X.722, section 8.2; docs/PROFILE.md, section 12).

ghost use Rattle.std.specs.Prelude.{◌≡◌, ℕ, List, Option, IfOk, OnOk, Some, is_some, slice_get};
ghost use Rattle.std.specs.Option.{option_and_then};
ghost use Rattle.gdmo_first_names.specs.DefinedNames.{AreAssignedNames};
ghost use Rattle.gdmo_first_names.specs.ReadModules.{AreWhole, HasWholeArcs};
ghost use Rattle.gdmo_names.specs.FaultSets.{Notes, OneFault};
ghost use Rattle.gdmo_names.specs.FirstLabelFault.LabelFault.{KindWrong};
ghost use Rattle.gdmo_names.specs.FoundViews.{AreTemplates, found_term, found_view};
ghost use Rattle.gdmo_names.specs.MemberViews.{identifier_term};
ghost use Rattle.gdmo_names.specs.PartTerms.{PartTerms, identifier_of};
ghost use Rattle.gdmo_names.specs.TemplateTerms.{IdentifierTerm};
ghost use Rattle.identifier_arcs.specs.KnownArcs.{AreKnown, TellsArcs};
ghost use Rattle.key_numbers.specs.NumberedLists.{Grows, Row};
ghost use Rattle.gdmo_identifiers.specs.IdentifierFaults.{DoubleIdentifiers, FaultsOfIdentifier, FaultsOfIdentifiers};
ghost use Rattle.gdmo_identifiers.specs.IdentifierFaults.{FaultsOfRegistered, FaultsOfRegistrations, HasNoArcs};
ghost use Rattle.gdmo_identifiers.specs.IdentifierFaults.{IsKnownTerm};
ghost use Rattle.gdmo_identifiers.specs.IdentifierTables.{HasWholeMaybe, IsPlaced, IsRegistration, TellsIdentifier};
ghost use Rattle.gdmo_identifiers.specs.IdentifierTables.{TellAllArcs, TellAllOids, TellAllPlaces, TellsOids};
ghost use Rattle.gdmo_identifiers.specs.IdentifierTables.{TellsRegistered};

use crate::first_faults::judge_first_arc;
use crate::oids::identifier_oid;
use crate::registrations::{Registration, note_doubles};
use gdmo_first_names::assigned_names::AssignedNames;
use gdmo_names::first_fault::{FaultKind, Faults};
use gdmo_names::found::Found;
use identifier_arcs::arc_texts::identifier_text;
use identifier_arcs::chains::told_at;
use identifier_arcs::known_arcs::KnownArcs;
use key_numbers::number_lists::NumberLists;
use std::alloc::{AllocError, Global};
use term_values::Oid;
use token_grammar::Token;
use token_grammar::object_identifier::ObjectIdentifier;

/// The list of the arcs of an identifier.
fn identifier_arcs(
    alloc: Global,
    known: &mut KnownArcs,
    identifier: &ObjectIdentifier,
) -> Result<Option<usize>, AllocError>
    ensures grows { Grows known.old.numbers.lists known.new.numbers.lists }
    ensures keeps { (parts : PartTerms) → AreKnown parts known.old → AreKnown parts known.new }
    ensures is { IfOk result (λ answer. (parts : PartTerms) → AreKnown parts known.old → AreWhole parts →
        HasWholeArcs (identifier_term identifier.now) →
        TellsArcs parts known.new.numbers.lists (identifier_term identifier.now) answer) }
{
    let text = identifier_text(alloc, identifier)?;
    known.arcs_of(alloc, &text)
}

/// The list of the arcs of a template's identifier.
fn registered_arcs(
    alloc: Global,
    known: &mut KnownArcs,
    found: &Found,
) -> Result<Option<usize>, AllocError>
    ensures grows { Grows known.old.numbers.lists known.new.numbers.lists }
    ensures keeps { (parts : PartTerms) → AreKnown parts known.old → AreKnown parts known.new }
    ensures is { IfOk result (λ answer. (parts : PartTerms) → AreKnown parts known.old → AreWhole parts →
        HasWholeMaybe (identifier_of (found_term found.now)) →
        TellsRegistered parts known.new.numbers.lists (found_view found.now) answer) }
{
    match found.identifier {
        Some(identifier) => identifier_arcs(alloc, known, identifier),
        None => Ok(None),
    }
}

/// The lists of the arcs of all templates' identifiers.
fn all_arcs(
    alloc: Global,
    known: &mut KnownArcs,
    templates: &[Found],
) -> Result<Vec<Option<usize>>, AllocError>
    ensures keeps { (parts : PartTerms) → AreKnown parts known.old → AreKnown parts known.new }
    ensures grows { Grows known.old.numbers.lists known.new.numbers.lists }
    ensures is { IfOk result (λ lists. (parts : PartTerms) → AreKnown parts known.old → AreWhole parts →
        AreTemplates parts templates.now →
        TellAllArcs parts known.new.numbers.lists lists.items) }
{
    let mut lists = Vec::new(alloc);
    for found in templates.iter() {
        lists.push(registered_arcs(alloc, known, found)?)?;
    }
    Ok(lists)
}

/// Notes an identifier whose arcs are no object identifier.
fn note_no_arcs(document: u32, brace: &Token, own: &Option<Oid>, faults: &mut Faults)
    ensures { (parts : PartTerms) (x : IdentifierTerm) → TellsIdentifier parts x own.now → IsKnownTerm parts x.first →
        Notes (OneFault (HasNoArcs parts x) KindWrong document brace.now.at) faults.old.first faults.new.first }
{
    match own {
        Some(_) => {}
        None => faults.note(document, brace, FaultKind::WrongKind),
    }
}

/// Judges the identifier of a template, whose first arc is known, and of which the list of the arcs is told.
fn judge_known(
    alloc: Global,
    lists: &NumberLists,
    document: u32,
    identifier: &ObjectIdentifier,
    list: Option<usize>,
    faults: &mut Faults,
) -> Result<Option<Oid>, AllocError>
    ensures { IfOk result (λ told. (parts : PartTerms) → IsKnownTerm parts (identifier_term identifier.now).first →
        TellsArcs parts lists.now (identifier_term identifier.now) list →
        (TellsIdentifier parts (identifier_term identifier.now) told)
        × Notes (OneFault (HasNoArcs parts (identifier_term identifier.now)) KindWrong document
        identifier.now.brace.at) faults.old.first faults.new.first) }
{
    let own = identifier_oid(alloc, lists, list)?;
    note_no_arcs(document, &identifier.brace, &own, faults);
    Ok(own)
}

/// Judges the identifier of a template, of which the list of the arcs is told.
fn judge_identifier(
    alloc: Global,
    assigned: &AssignedNames,
    lists: &NumberLists,
    document: u32,
    identifier: &ObjectIdentifier,
    list: Option<usize>,
    faults: &mut Faults,
) -> Result<Option<Oid>, AllocError>
    ensures { IfOk result (λ told. (parts : PartTerms) → AreAssignedNames parts assigned.now →
        TellsArcs parts lists.now (identifier_term identifier.now) list →
        (TellsIdentifier parts (identifier_term identifier.now) told)
        × Notes (FaultsOfIdentifier parts document (identifier_term identifier.now)) faults.old.first
        faults.new.first) }
{
    if judge_first_arc(assigned, document, &identifier.first, faults) {
        judge_known(alloc, lists, document, identifier, list, faults)
    } else {
        Ok(None)
    }
}

/// The same, where the template has one.
fn judge_template(
    alloc: Global,
    assigned: &AssignedNames,
    lists: &NumberLists,
    found: &Found,
    list: Option<usize>,
    faults: &mut Faults,
) -> Result<Option<Oid>, AllocError>
    ensures { IfOk result (λ told. (parts : PartTerms) → AreAssignedNames parts assigned.now →
        TellsRegistered parts lists.now (found_view found.now) list →
        (TellsOids parts (found_view found.now) told)
        × Notes (FaultsOfRegistered parts (found_view found.now)) faults.old.first faults.new.first) }
{
    match found.identifier {
        Some(identifier) => judge_identifier(
            alloc,
            assigned,
            lists,
            found.document,
            identifier,
            list,
            faults,
        ),
        None => Ok(None),
    }
}

/// Judges the identifiers of templates, of which the lists of the arcs are told.
fn judge_all(
    alloc: Global,
    assigned: &AssignedNames,
    lists: &NumberLists,
    templates: &[Found],
    told: &[Option<usize>],
    faults: &mut Faults,
) -> Result<Vec<Option<Oid>>, AllocError>
    ensures { IfOk result (λ own. (parts : PartTerms) → AreTemplates parts templates.now →
        AreAssignedNames parts assigned.now →
        TellAllArcs parts lists.now told.now →
        (TellAllOids parts own.items)
        × Notes (FaultsOfRegistrations parts) faults.old.first faults.new.first) }
{
    let mut identifiers = Vec::new(alloc);
    for (number, found) in templates.iter().enumerate() {
        let list = told_at(told, number);
        identifiers.push(judge_template(alloc, assigned, lists, found, list, faults)?)?;
    }
    Ok(identifiers)
}

/// Where a template is registered under a list of arcs.
fn registered_at<'a>(found: &Found<'a>, list: usize) -> Option<Registration<'a>>
    ensures { IsPlaced (identifier_of (found_term found.now)) found.now.document list result }
{
    match found.identifier {
        Some(identifier) => Some(Registration {
            list,
            document: found.document,
            brace: &identifier.brace,
        }),
        None => None,
    }
}

/// The same, if its identifier is an object identifier.
fn registered_if<'a>(found: &Found<'a>, list: usize, is_one: bool) -> Option<Registration<'a>>
    ensures { (parts : PartTerms) (row : Row) (own : Option (List ℕ)) →
        TellsRegistered parts row (found_view found.now) (Some list) → TellsOids parts (found_view found.now) own →
        is_one ≡ is_some own → IsRegistration parts row (found_view found.now) result }
{
    if is_one {
        registered_at(found, list)
    } else {
        None
    }
}

/// The same, where the list of the arcs is told.
fn registration<'a>(
    found: &Found<'a>,
    list: Option<usize>,
    is_one: bool,
) -> Option<Registration<'a>>
    ensures { (parts : PartTerms) (row : Row) (own : Option (List ℕ)) →
        TellsRegistered parts row (found_view found.now) list → TellsOids parts (found_view found.now) own →
        is_one ≡ is_some own → IsRegistration parts row (found_view found.now) result }
{
    match list {
        Some(list) => registered_if(found, list, is_one),
        None => None,
    }
}

/// Whether the identifier with a number is an object identifier.
fn has_oid(identifiers: &[Option<Oid>], number: usize) -> bool
    ensures { result ≡ is_some (option_and_then (λ x. x) (slice_get identifiers.now number)) }
{
    match identifiers.get(number) {
        Some(own) => own.is_some(),
        None => false,
    }
}

/// Where templates are registered, of which the lists of the arcs and the object identifiers are told.
fn registrations<'a>(
    alloc: Global,
    templates: &[Found<'a>],
    lists: &[Option<usize>],
    identifiers: &[Option<Oid>],
) -> Result<Vec<Option<Registration<'a>>>, AllocError>
    ensures { IfOk result (λ registered. (parts : PartTerms) (row : Row) → AreTemplates parts templates.now →
        TellAllArcs parts row lists.now → TellAllOids parts identifiers.now →
        TellAllPlaces parts row registered.items) }
{
    let mut registered = Vec::new(alloc);
    for (number, found) in templates.iter().enumerate() {
        let list = told_at(lists, number);
        registered.push(registration(found, list, has_oid(identifiers, number)))?;
    }
    Ok(registered)
}

/// Notes each template under whose identifier an earlier one is registered.
fn note_registered(
    alloc: Global,
    lists: &NumberLists,
    templates: &[Found],
    told: &[Option<usize>],
    identifiers: &[Option<Oid>],
    faults: &mut Faults,
) -> Result<(), AllocError>
    ensures { OnOk result ((parts : PartTerms) → AreTemplates parts templates.now →
        TellAllArcs parts lists.now told.now →
        TellAllOids parts identifiers.now →
        Notes (DoubleIdentifiers parts) faults.old.first faults.new.first) }
{
    lists.has_each_once();
    let registered = registrations(alloc, templates, told, identifiers)?;
    note_doubles(alloc, registered.as_slice(), faults)
}

/// Judges the identifiers of templates, of which the lists of the arcs are told.
fn judge_told(
    alloc: Global,
    assigned: &AssignedNames,
    lists: &NumberLists,
    templates: &[Found],
    told: &[Option<usize>],
    faults: &mut Faults,
) -> Result<Vec<Option<Oid>>, AllocError>
    ensures { IfOk result (λ own. (parts : PartTerms) → AreTemplates parts templates.now →
        AreAssignedNames parts assigned.now →
        TellAllArcs parts lists.now told.now →
        (TellAllOids parts own.items)
        × Notes (FaultsOfIdentifiers parts) faults.old.first faults.new.first) }
{
    let identifiers = judge_all(alloc, assigned, lists, templates, told, faults)?;
    note_registered(
        alloc,
        lists,
        templates,
        told,
        identifiers.as_slice(),
        faults,
    )?;
    Ok(identifiers)
}

/// Judges the identifiers of templates; the answer has that of each template, where it is an object identifier. Noted
/// are first names that mean nothing, or no OBJECT IDENTIFIER value, arcs that are no object identifier, and
/// identifiers under which an earlier template is registered.
pub fn judge_templates(
    alloc: Global,
    assigned: &AssignedNames,
    known: &mut KnownArcs,
    templates: &[Found],
    faults: &mut Faults,
) -> Result<Vec<Option<Oid>>, AllocError>
    ensures keeps { (parts : PartTerms) → AreKnown parts known.old → AreKnown parts known.new }
    ensures is { IfOk result (λ own. (parts : PartTerms) → AreTemplates parts templates.now →
        AreAssignedNames parts assigned.now → AreKnown parts known.old → AreWhole parts →
        (TellAllOids parts own.items)
        × Notes (FaultsOfIdentifiers parts) faults.old.first faults.new.first) }
{
    let told = all_arcs(alloc, known, templates)?;
    judge_told(
        alloc,
        assigned,
        &known.numbers.lists,
        templates,
        told.as_slice(),
        faults,
    )
}
