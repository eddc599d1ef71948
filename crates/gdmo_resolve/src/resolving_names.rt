//! What depends on first names and identifiers, at the end of which everything is linked, or the first fault told
//! (X.680, section 32; X.722, section 8; docs/PROFILE.md, section 12).

ghost use Rattle.std.specs.Prelude.{◌≡◌, IfOk, None, false, map, replicate};
ghost use Rattle.first_name_arcs.specs.BegunFirst.{AreBegun};
ghost use Rattle.first_name_arcs.specs.ToldNames.{told_name};
ghost use Rattle.first_name_arcs.specs.UnequalNames.{UnequalNames};
ghost use Rattle.gdmo_first_names.specs.DefinedNames.{AreAssignedNames};
ghost use Rattle.gdmo_identifiers.specs.IdentifierTables.{TellAllOids};
ghost use Rattle.gdmo_linking.specs.LinkedTables.{TellFirstNames};
ghost use Rattle.gdmo_names.specs.FaultSets.{Notes};
ghost use Rattle.gdmo_names.specs.FirstLabelFault.{AreFaultless};
ghost use Rattle.gdmo_names.specs.PartTerms.{PartTerms};
ghost use Rattle.identifier_arcs.specs.KnownArcs.{AreKnown};
ghost use Rattle.label_laws.specs.AllFaults.{AllFaults, WithModules, WithTypes};
ghost use Rattle.gdmo_resolve.specs.Resolved.{AreKnownParts, Concludes};

use crate::known_parts::KnownParts;
use begun_values::laws::marks_tell_begun;
use begun_values::module_values::mark_module_values;
use begun_values::values_of_sections::mark_section_values;
use first_name_arcs::linked_first_names::linked_first_names;
use first_name_arcs::unequal_names::note_unequal;
use gdmo_begun_names::begun_names::BegunNames;
use gdmo_begun_names::identifier_names::mark_identifiers;
use gdmo_first_names::assigned_names::{AssignedNames, assigned_names};
use gdmo_identifiers::identifiers::judge_templates;
use gdmo_identifiers::module_identifiers::judge_modules;
use gdmo_names::first_fault::{Faults, refusal_of};
use gdmo_names::refusal::LabelRefusal;
use identifier_arcs::known_arcs::{KnownArcs, known_arcs};
use linked_documents::link_parts;
use linked_parts::linked::{Linked, LinkedFirstName};
use std::alloc::{AllocError, Global};
use term_values::Oid;

/// Links everything, where nothing is wrong.
fn link_all(
    known: KnownParts,
    identifiers: &[Option<Oid>],
    names: Vec<LinkedFirstName>,
) -> Result<Linked, LabelRefusal>
    ensures { (ps : PartTerms) → AreKnownParts ps known.entry → AreFaultless ps → TellAllOids ps identifiers.now →
        TellFirstNames ps (map told_name names.items) → Concludes ps result }
{
    let sections = known.parts.sections.as_slice();
    match link_parts(
        known.linkage,
        known.tables,
        sections,
        known.targets,
        identifiers,
        names,
    ) {
        Ok(linked) => Ok(linked),
        Err(_) => Err(LabelRefusal::Memory),
    }
}

/// The same where nothing was noted; else tells the first fault.
fn link_faultless(
    known: KnownParts,
    identifiers: &[Option<Oid>],
    names: Vec<LinkedFirstName>,
    faults: &Faults,
) -> Result<Linked, LabelRefusal>
    ensures { (ps : PartTerms) → AreKnownParts ps known.entry → TellAllOids ps identifiers.now →
        TellFirstNames ps (map told_name names.items) → Notes (AllFaults ps) None faults.now.first →
        Concludes ps result }
{
    match faults.first {
        Some(fault) => Err(refusal_of(fault)),
        None => link_all(known, identifiers, names),
    }
}

/// Notes the first names that are unequal, and tells for which arcs first names stand.
fn told_names(
    known: KnownParts,
    assigned: &AssignedNames,
    arcs: &KnownArcs,
    begun: &[bool],
    faults: &mut Faults,
) -> Result<Vec<LinkedFirstName>, AllocError>
    ensures { IfOk result (λ names. (ps : PartTerms) → AreKnownParts ps known.entry →
        AreAssignedNames ps assigned.now → AreKnown ps arcs.now → AreBegun ps begun.now →
        TellFirstNames ps (map told_name names.items) × Notes (UnequalNames ps) faults.old.first faults.new.first) }
{
    let alloc = known.linkage.alloc;
    let definers = assigned.definers.as_slice();
    note_unequal(alloc, known.tables, definers, arcs, begun, faults)?;
    linked_first_names(alloc, known.tables, definers, arcs, begun)
}

/// Judges the identifiers of templates and the first names, and links everything where nothing is wrong.
fn link_begun(
    known: KnownParts,
    assigned: &AssignedNames,
    arcs: &mut KnownArcs,
    begun: &[bool],
    faults: &mut Faults,
) -> Result<Linked, LabelRefusal>
    ensures { (ps : PartTerms) → AreKnownParts ps known.entry → AreAssignedNames ps assigned.now →
        AreKnown ps arcs.old → AreBegun ps begun.now → Notes (WithModules ps) None faults.old.first →
        Concludes ps result }
{
    let alloc = known.linkage.alloc;
    let templates = known.linkage.templates;
    let identifiers = judge_templates(alloc, assigned, arcs, templates, faults)?;
    let names = told_names(known, assigned, arcs, begun, faults)?;
    link_faultless(known, identifiers.as_slice(), names, faults)
}

/// So many marks, none of them set.
fn no_marks(alloc: Global, count: usize) -> Result<Vec<bool>, AllocError>
    ensures { IfOk result (λ marks. marks.items ≡ replicate count false) }
{
    vec![in alloc; false; count]
}

/// With which of the first names that modules define some identifier or value begins, by the first assignment that
/// defines the name.
fn begun_names(known: KnownParts, assigned: &AssignedNames) -> Result<Vec<bool>, AllocError>
    ensures { IfOk result (λ begun. (ps : PartTerms) → AreKnownParts ps known.entry →
        AreAssignedNames ps assigned.now → AreBegun ps begun.items) }
{
    let linkage = known.linkage;
    let mut names = BegunNames {
        defined: &assigned.defined,
        begun: no_marks(linkage.alloc, known.tables.count())?,
    };
    mark_module_values(linkage.alloc, known.tables, linkage.types, &mut names)?;
    let sections = known.parts.sections.as_slice();
    mark_section_values(linkage, sections, known.targets, &mut names)?;
    mark_identifiers(
        known.parts.modules.as_slice(),
        linkage.templates,
        &mut names,
    );
    marks_tell_begun();
    Ok(names.begun)
}

/// Judges identifiers and first names, with the names that modules assign.
fn resolve_assigned(
    known: KnownParts,
    assigned: &AssignedNames,
    faults: &mut Faults,
) -> Result<Linked, LabelRefusal>
    ensures { (ps : PartTerms) → AreKnownParts ps known.entry → AreAssignedNames ps assigned.now →
        Notes (WithTypes ps) None faults.old.first → Concludes ps result }
{
    let begun = begun_names(known, assigned)?;
    judge_modules(assigned, known.parts.modules.as_slice(), faults);
    let mut arcs = known_arcs(known.linkage.alloc, known.tables, assigned)?;
    link_begun(known, assigned, &mut arcs, begun.as_slice(), faults)
}

/// Judges first names and identifiers, and links everything where nothing is wrong, else tells the first fault.
pub(crate) fn resolve_names(known: KnownParts, faults: &mut Faults) -> Result<Linked, LabelRefusal>
    ensures { (ps : PartTerms) → AreKnownParts ps known.entry → Notes (WithTypes ps) None faults.old.first →
        Concludes ps result }
{
    let assigned = assigned_names(known.linkage.alloc, known.tables)?;
    resolve_assigned(known, &assigned, faults)
}
