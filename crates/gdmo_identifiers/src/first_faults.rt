//! Faults of the first names of identifiers (X.660, annex A; X.680, section 32; docs/PROFILE.md, section 12).

ghost use Rattle.std.specs.Prelude.{◌≡◌, ◌↔◌, ◌||◌, is_some, true};
ghost use Rattle.asn1_names.specs.FirstNames.{found};
ghost use Rattle.asn1_names.specs.StandardModule.{standard_type};
ghost use Rattle.gdmo_first_names.specs.DefinedNames.{AreAssignedNames};
ghost use Rattle.gdmo_names.specs.FaultSets.{Notes};
ghost use Rattle.gdmo_names.specs.FirstNames.{IsAssigned, root_arc};
ghost use Rattle.gdmo_names.specs.MemberViews.{first_term};
ghost use Rattle.gdmo_names.specs.PartTerms.{PartTerms};
ghost use Rattle.identifier_arcs.specs.ArcTexts.{first_said};
ghost use Rattle.gdmo_identifiers.specs.IdentifierFaults.{FirstFaults, IsKnownName, IsKnownTerm, NameFaults};
ghost use Rattle.gdmo_identifiers.specs.IdentifierFaults.{NamedFaults};

use asn1_names::standard_module::standard_type;
use gdmo_first_names::assigned_names::AssignedNames;
use gdmo_first_names::roots::root_arc;
use gdmo_names::first_fault::{FaultKind, Faults};
use identifier_arcs::arc_texts::{FirstText, first_text};
use token_grammar::Token;
use token_grammar::object_identifier::FirstArc;

fn is_standard(name: &[u8]) -> bool
    ensures { result ≡ is_some (standard_type name.now) }
{
    standard_type(name).is_some()
}

fn has_name(assigned: &AssignedNames, name: &[u8]) -> bool
    ensures { result ≡ is_some (found assigned.now.names name.now) }
{
    assigned.names.get(name).is_some()
}

fn one_holds(one: bool, other: bool) -> bool
    ensures { result ≡ (one || other) }
{
    one | other
}

/// Whether some module, CMIP-1 among them, assigns a name.
fn is_assigned(assigned: &AssignedNames, name: &[u8]) -> bool
    ensures { (parts : PartTerms) → AreAssignedNames parts assigned.now → (result ≡ true) ↔ IsAssigned parts name.now }
{
    one_holds(has_name(assigned, name), is_standard(name))
}

fn is_root(name: &[u8]) -> bool
    ensures { result ≡ is_some (root_arc name.now) }
{
    root_arc(name).is_some()
}

fn is_defined(assigned: &AssignedNames, name: &[u8]) -> bool
    ensures { result ≡ is_some (found assigned.now.defined name.now) }
{
    assigned.defined.get(name).is_some()
}

/// Whether a name is that of a root, or one that some module defines.
fn is_known(assigned: &AssignedNames, name: &[u8]) -> bool
    ensures { (parts : PartTerms) → AreAssignedNames parts assigned.now → (result ≡ true) ↔ IsKnownName parts name.now }
{
    one_holds(is_root(name), is_defined(assigned, name))
}

/// Notes a name that isn't known.
fn note_name(assigned: &AssignedNames, document: u32, name: &Token, faults: &mut Faults)
    ensures { (parts : PartTerms) → AreAssignedNames parts assigned.now →
        Notes (NamedFaults parts document name.now) faults.old.first faults.new.first }
{
    if is_assigned(assigned, name.text.as_slice()) {
        faults.note(document, name, FaultKind::WrongKind);
    } else {
        faults.note(document, name, FaultKind::UnknownLabel);
    }
}

/// Notes a first name that means nothing, or no OBJECT IDENTIFIER value; true where it means one.
fn judge_name(assigned: &AssignedNames, document: u32, name: &Token, faults: &mut Faults) -> bool
    ensures known { (parts : PartTerms) → AreAssignedNames parts assigned.now →
        (result ≡ true) ↔ IsKnownName parts name.now.text }
    ensures faults { (parts : PartTerms) → AreAssignedNames parts assigned.now →
        Notes (NameFaults parts document name.now) faults.old.first faults.new.first }
{
    if is_known(assigned, name.text.as_slice()) {
        return true;
    }
    note_name(assigned, document, name, faults);
    false
}

/// The same of a first arc.
fn judge_first(
    assigned: &AssignedNames,
    document: u32,
    first: FirstText,
    faults: &mut Faults,
) -> bool
    ensures known { (parts : PartTerms) → AreAssignedNames parts assigned.now →
        (result ≡ true) ↔ IsKnownTerm parts (first_said first.entry) }
    ensures faults { (parts : PartTerms) → AreAssignedNames parts assigned.now →
        Notes (FirstFaults parts document (first_said first.entry)) faults.old.first faults.new.first }
{
    match first {
        FirstText::Number(_) => true,
        FirstText::Name(name) => judge_name(assigned, document, name, faults),
    }
}

/// Judges the first arc of an identifier; true where it is a number, or a name that is known.
pub fn judge_first_arc(
    assigned: &AssignedNames,
    document: u32,
    first: &FirstArc,
    faults: &mut Faults,
) -> bool
    ensures known { (parts : PartTerms) → AreAssignedNames parts assigned.now →
        (result ≡ true) ↔ IsKnownTerm parts (first_term first.now) }
    ensures faults { (parts : PartTerms) → AreAssignedNames parts assigned.now →
        Notes (FirstFaults parts document (first_term first.now)) faults.old.first faults.new.first }
{
    judge_first(assigned, document, first_text(first), faults)
}
