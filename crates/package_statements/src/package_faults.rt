//! What is wrong with what packages state: ADD or REMOVE on what is no set, and values that don't fit (X.722, section
//! 8.4; docs/PROFILE.md, section 18).

ghost use Rattle.std.specs.Prelude.{◌≡◌, ◌↔◌, List, IfOk, OnOk, true};
ghost use Rattle.std.specs.Option.{option_copied};
ghost use Rattle.term_model.specs.WholeRecords.{IsSetValued};
ghost use Rattle.term_values.specs.Fits.{Fits};
ghost use Rattle.asn1_names.specs.ModuleTerms.{ModuleTerm};
ghost use Rattle.filled_syntaxes.specs.AssignedValues.{TellsAssigned};
ghost use Rattle.filled_syntaxes.specs.LinkedMeanings.{linked_arcs, linked_meaning};
ghost use Rattle.class_faults.specs.FaultSets.{Notes, OneFault};
ghost use Rattle.class_faults.specs.FirstClassFault.ClassFault.{ValueBad};
ghost use Rattle.class_faults.specs.NotedFaults.{kind_of};
ghost use Rattle.linked_types.specs.KnownParts.{AreClosingParts};
ghost use Rattle.package_statements.specs.StatedFaults.{StatedFaults};
ghost use Rattle.package_statements.specs.UseFaults.{FaultsOfPackage, MisfitFaults, SaidFaults, UseFaults};
ghost use Rattle.package_statements.specs.UseFaults.{ValueFaults, WordFaults};

use crate::statements::value_number;
use class_faults::{FaultKind, Faults};
use joined_statements::AssignedValues;
use linked_parts::linked::{LinkedName, LinkedPackage, LinkedUse};
use linked_types::ClosingParts;
use permitted_bounds::is_set_valued;
use std::alloc::{AllocError, Global};
use term_values::{Syntax, Value};
use token_grammar::Token;
use value_fits::fits;

/// Notes that this is wrong at a token of a document, where it is.
fn note_where(is_wrong: bool, document: u32, token: &Token, kind: FaultKind, faults: &mut Faults)
    ensures { Notes (OneFault (is_wrong ≡ true) (kind_of kind) document token.now.at) faults.old.first
        faults.new.first }
{
    if is_wrong {
        faults.note(document, token, kind);
    }
}

/// Whether a syntax is no set.
fn is_no_set(syntax: &Syntax) -> bool
    ensures { (result ≡ true) ↔ ¬ IsSetValued syntax.now }
{
    !is_set_valued(syntax)
}

/// Whether a value doesn't fit a syntax.
fn is_misfit(alloc: Global, syntax: &Syntax, value: &Value) -> Result<bool, AllocError>
    ensures { IfOk result (λ told. (told ≡ true) ↔ ¬ Fits syntax.now value.now) }
{
    let found = fits(alloc, syntax, value)?;
    Ok(!found)
}

/// Notes a word that stands where the syntax is no set.
fn note_word(document: u32, word: &Option<Token>, syntax: &Syntax, faults: &mut Faults)
    ensures { Notes (WordFaults syntax.now document word.now) faults.old.first faults.new.first }
{
    match word {
        Some(token) => {
            let is_wrong = is_no_set(syntax);
            note_where(is_wrong, document, token, FaultKind::NotSetValued, faults)
        }
        None => {}
    }
}

/// The value of a name, where it has one.
fn named_value<'p>(parts: &ClosingParts<'_, '_, 'p>, name: &LinkedName) -> Option<&'p Value>
    ensures { (ms : List ModuleTerm) → AreClosingParts ms parts.now →
        TellsAssigned ms (linked_arcs parts.now.linked.now) (linked_meaning ms name.now.meaning)
        (option_copied result) }
{
    let values = AssignedValues {
        items: parts.values,
    };
    match value_number(parts.things, name) {
        Some(number) => values.value(number),
        None => None,
    }
}

/// Notes at this name that a value doesn't fit a syntax, where it doesn't.
fn note_misfit(
    alloc: Global,
    document: u32,
    name: &LinkedName,
    syntax: &Syntax,
    value: &Value,
    faults: &mut Faults,
) -> Result<(), AllocError>
    ensures { OnOk result (Notes (OneFault (¬ Fits syntax.now value.now) ValueBad document name.now.name.at)
        faults.old.first faults.new.first) }
{
    let is_wrong = is_misfit(alloc, syntax, value)?;
    note_where(is_wrong, document, &name.name, FaultKind::BadValue, faults);
    Ok(())
}

/// Notes a name whose value doesn't fit a syntax. One without a value is noted where it is assigned.
fn note_named(
    parts: &ClosingParts,
    document: u32,
    name: &LinkedName,
    syntax: &Syntax,
    faults: &mut Faults,
) -> Result<(), AllocError>
    ensures { OnOk result ((ms : List ModuleTerm) → AreClosingParts ms parts.now →
        Notes (MisfitFaults ms parts.now.linked.now syntax.now document name.now) faults.old.first faults.new.first) }
{
    match named_value(parts, name) {
        Some(value) => Ok(note_misfit(parts.alloc, document, name, syntax, value, faults)?),
        None => Ok(()),
    }
}

/// Notes a default, or an initial value, that doesn't fit a syntax.
fn note_value(
    parts: &ClosingParts,
    document: u32,
    name: &Option<LinkedName>,
    syntax: &Syntax,
    faults: &mut Faults,
) -> Result<(), AllocError>
    ensures { OnOk result ((ms : List ModuleTerm) → AreClosingParts ms parts.now →
        Notes (ValueFaults ms parts.now.linked.now syntax.now document name.now) faults.old.first faults.new.first) }
{
    match name {
        Some(name) => Ok(note_named(parts, document, name, syntax, faults)?),
        None => Ok(()),
    }
}

/// Notes what is wrong with what a package states of an attribute that has this syntax.
fn note_said(
    parts: &ClosingParts,
    document: u32,
    stated: &LinkedUse,
    syntax: &Syntax,
    faults: &mut Faults,
) -> Result<(), AllocError>
    ensures { OnOk result ((ms : List ModuleTerm) → AreClosingParts ms parts.now →
        Notes (SaidFaults ms parts.now.linked.now syntax.now document stated.now) faults.old.first faults.new.first) }
{
    note_word(document, &stated.add, syntax, faults);
    note_word(document, &stated.remove, syntax, faults);
    note_value(parts, document, &stated.default_value, syntax, faults)?;
    note_value(parts, document, &stated.initial_value, syntax, faults)?;
    Ok(())
}

/// Notes what is wrong with what a package states of an attribute.
fn note_use(
    parts: &ClosingParts,
    document: u32,
    stated: &LinkedUse,
    faults: &mut Faults,
) -> Result<(), AllocError>
    ensures { OnOk result ((ms : List ModuleTerm) → AreClosingParts ms parts.now →
        Notes (UseFaults ms parts.now.linked.now document stated.now) faults.old.first faults.new.first) }
{
    match parts.attribute_syntax(stated.attribute) {
        Some(syntax) => Ok(note_said(parts, document, stated, syntax, faults)?),
        None => Ok(()),
    }
}

/// Notes what is wrong with what a package states.
fn note_package(
    parts: &ClosingParts,
    part: &LinkedPackage,
    faults: &mut Faults,
) -> Result<(), AllocError>
    ensures { OnOk result ((ms : List ModuleTerm) → AreClosingParts ms parts.now →
        Notes (FaultsOfPackage ms parts.now.linked.now part.now) faults.old.first faults.new.first) }
{
    for stated in part.attributes.iter() {
        note_use(parts, part.head.document, stated, faults)?;
    }
    Ok(())
}

/// Notes what is wrong with what packages state, whatever class has them: ADD or REMOVE on what is no set, at the word,
/// and values that don't fit the syntax of their attribute, at their names.
pub fn note_packages(parts: &ClosingParts, faults: &mut Faults) -> Result<(), AllocError>
    ensures { OnOk result ((ms : List ModuleTerm) → AreClosingParts ms parts.now →
        Notes (StatedFaults ms parts.now.linked.now) faults.old.first faults.new.first) }
{
    for part in parts.linked.packages.iter() {
        note_package(parts, part, faults)?;
    }
    Ok(())
}
