//! The identifiers of modules, and of those from which they import (X.680, section 13; docs/PROFILE.md, section 12).

ghost use Rattle.std.specs.Prelude.{Some};
ghost use Rattle.gdmo_first_names.specs.DefinedNames.{AreAssignedNames};
ghost use Rattle.gdmo_first_names.specs.ReadModules.{HasModules};
ghost use Rattle.gdmo_names.specs.FaultSets.{AnyOf, Notes};
ghost use Rattle.gdmo_names.specs.PartTerms.{PartTerms};
ghost use Rattle.gdmo_names.specs.PartViews.{identifier_list, imported_identifiers, module_part};
ghost use Rattle.gdmo_identifiers.specs.IdentifierFaults.{FaultsOfModule, FaultsOfModules, StatedFaults};

use crate::first_faults::judge_first_arc;
use asn1_syntax::module::{Imports, Module};
use gdmo_first_names::assigned_names::AssignedNames;
use gdmo_names::first_fault::Faults;
use token_grammar::object_identifier::ObjectIdentifier;

/// Judges an identifier of a module, where it has one.
fn judge_module_identifier(
    assigned: &AssignedNames,
    document: u32,
    identifier: &Option<ObjectIdentifier>,
    faults: &mut Faults,
)
    ensures { (parts : PartTerms) → AreAssignedNames parts assigned.now →
        Notes (AnyOf (StatedFaults parts document) (identifier_list identifier.now)) faults.old.first faults.new.first }
{
    if let Some(identifier) = identifier {
        judge_first_arc(assigned, document, &identifier.first, faults);
    }
}

/// Judges those of the modules from which one imports.
fn judge_imports(assigned: &AssignedNames, document: u32, imports: &Imports, faults: &mut Faults)
    ensures { (parts : PartTerms) → AreAssignedNames parts assigned.now →
        Notes (AnyOf (StatedFaults parts document) (imported_identifiers (Some imports.now))) faults.old.first
        faults.new.first }
{
    judge_module_identifier(assigned, document, &imports.first.identifier, faults);
    for other in imports.others.iter() {
        judge_module_identifier(assigned, document, &other.identifier, faults);
    }
}

/// The same, where it imports.
fn judge_maybe_imports(
    assigned: &AssignedNames,
    document: u32,
    imports: &Option<Imports>,
    faults: &mut Faults,
)
    ensures { (parts : PartTerms) → AreAssignedNames parts assigned.now →
        Notes (AnyOf (StatedFaults parts document) (imported_identifiers imports.now)) faults.old.first
        faults.new.first }
{
    if let Some(imports) = imports {
        judge_imports(assigned, document, imports, faults);
    }
}

/// Judges the identifiers of one module.
fn judge_module(assigned: &AssignedNames, text: &Module, faults: &mut Faults)
    ensures { (parts : PartTerms) → AreAssignedNames parts assigned.now →
        Notes (FaultsOfModule parts (module_part text.now)) faults.old.first faults.new.first }
{
    judge_module_identifier(assigned, text.document, &text.identifier, faults);
    judge_maybe_imports(assigned, text.document, &text.imports, faults);
}

/// Judges the identifiers of modules, and of those from which they import: of each first name that means nothing, or no
/// OBJECT IDENTIFIER value, the fault is noted.
pub fn judge_modules(assigned: &AssignedNames, modules: &[Module], faults: &mut Faults)
    ensures { (parts : PartTerms) → HasModules parts modules.now → AreAssignedNames parts assigned.now →
        Notes (FaultsOfModules parts) faults.old.first faults.new.first }
{
    for text in modules.iter() {
        judge_module(assigned, text, faults);
    }
}
