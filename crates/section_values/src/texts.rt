//! Texts of values in sections, each read in the syntax for which it stands (docs/PROFILE.md, sections 9 and 18).

ghost use Rattle.std.specs.Prelude.{◌≡◌, ℕ, List, Some, IfOk, OnOk, slice_get};
ghost use Rattle.std.specs.Option.{option_copied};
ghost use Rattle.term_values.specs.Syntaxes.{TypeSyntax};
ghost use Rattle.asn1_values_syntax.specs.ValueTrees.{value_tree};
ghost use Rattle.asn1_names.specs.ModuleTerms.{ModuleTerm};
ghost use Rattle.linked_parts.specs.declared.linked.LinkedAction.{LinkedAction};
ghost use Rattle.linked_parts.specs.declared.linked.LinkedNotification.{LinkedNotification};
ghost use Rattle.filled_syntaxes.specs.LinkedMeanings.{linked_arcs};
ghost use Rattle.filled_syntaxes.specs.NotedTexts.{NotesTexts};
ghost use Rattle.filled_syntaxes.specs.SaidTexts.{TellsValue};
ghost use Rattle.class_faults.specs.AttributeSyntaxes.{AttributeHas};
ghost use Rattle.class_faults.specs.BadValues.{IsBadFor, IsBadForAttribute};
ghost use Rattle.class_faults.specs.StatedProperties.{TypeHas};
ghost use Rattle.linked_types.specs.KnownParts.{AreClosingParts};
ghost use Rattle.linked_types.specs.PartTypes.{TellsOptionalType};
ghost use Rattle.section_values.specs.BadSections.{BadInformation, BadReply, InDocument, IsBadIn};

use asn1_values::first_place;
use asn1_values_syntax::value::ValueText;
use filled_syntaxes::BadTexts;
use linked_parts::linked::LinkedName;
use linked_types::ClosingParts;
use std::alloc::AllocError;
use term_values::{Syntax, Value};

/// The value of a syntax that a text of a document denotes. A text for which there is no syntax isn't judged.
fn syntax_value(
    parts: &ClosingParts,
    document: u32,
    syntax: Option<&Syntax>,
    text: &ValueText,
    bad: &mut BadTexts,
) -> Result<Option<Value>, AllocError>
    ensures told { IfOk result (λ told. (ms : List ModuleTerm) (known : TypeSyntax) → AreClosingParts ms parts.now →
        option_copied syntax.entry ≡ Some known →
        TellsValue (linked_arcs parts.now.linked.now) known (value_tree text.now) told) }
    ensures noted { OnOk result ((ms : List ModuleTerm) → AreClosingParts ms parts.now →
        NotesTexts (InDocument document (IsBadIn parts.now.linked.now (option_copied syntax.entry) text.now))
        bad.old.first bad.new.first) }
{
    match syntax {
        Some(syntax) => {
            let value = parts.things.value(syntax, text, document, bad)?;
            Ok(value)
        }
        None => Ok(None),
    }
}

/// The value of an attribute that a text of a document denotes. One of an attribute without syntax isn't judged.
pub fn attribute_value(
    parts: &ClosingParts,
    document: u32,
    attribute: usize,
    text: &ValueText,
    bad: &mut BadTexts,
) -> Result<Option<Value>, AllocError>
    ensures told { IfOk result (λ told. (ms : List ModuleTerm) (syntax : TypeSyntax) → AreClosingParts ms parts.now →
        AttributeHas ms parts.now.linked.now attribute syntax →
        TellsValue (linked_arcs parts.now.linked.now) syntax (value_tree text.now) told) }
    ensures noted { OnOk result ((ms : List ModuleTerm) → AreClosingParts ms parts.now →
        NotesTexts (InDocument document (IsBadForAttribute ms parts.now.linked.now attribute text.now))
        bad.old.first bad.new.first) }
{
    let syntax = parts.attribute_syntax(attribute);
    let value = syntax_value(parts, document, syntax, text, bad)?;
    Ok(value)
}

/// The value of a type that a text of a document denotes; where none is named, this is noted. The type has this place.
fn type_value(
    parts: &ClosingParts,
    document: u32,
    name: &Option<LinkedName>,
    place: Option<usize>,
    text: &ValueText,
    bad: &mut BadTexts,
) -> Result<Option<Value>, AllocError>
    ensures told { IfOk result (λ told. (ms : List ModuleTerm) (named : LinkedName) (syntax : TypeSyntax) →
        AreClosingParts ms parts.now →
        TellsOptionalType ms parts.now.linked.now parts.now.table.now name.now place → name.now ≡ Some named →
        TypeHas ms parts.now.linked.now named syntax →
        TellsValue (linked_arcs parts.now.linked.now) syntax (value_tree text.now) told) }
    ensures noted { OnOk result ((ms : List ModuleTerm) → AreClosingParts ms parts.now →
        TellsOptionalType ms parts.now.linked.now parts.now.table.now name.now place →
        NotesTexts (InDocument document (IsBadFor ms parts.now.linked.now name.now text.now))
        bad.old.first bad.new.first) }
{
    match name {
        Some(_) => {
            let syntax = parts.table.syntax(place);
            let value = syntax_value(parts, document, syntax, text, bad)?;
            Ok(value)
        }
        None => {
            bad.note(document, first_place(text));
            Ok(None)
        }
    }
}

/// The value of a notification's information that a text of a document denotes.
pub fn information_value(
    parts: &ClosingParts,
    document: u32,
    notification: usize,
    text: &ValueText,
    bad: &mut BadTexts,
) -> Result<Option<Value>, AllocError>
    ensures told { IfOk result (λ told. (ms : List ModuleTerm) (part : LinkedNotification) (named : LinkedName)
        (syntax : TypeSyntax) → AreClosingParts ms parts.now →
        slice_get parts.now.linked.now.notifications.items notification ≡ Some part → part.information ≡ Some named →
        TypeHas ms parts.now.linked.now named syntax →
        TellsValue (linked_arcs parts.now.linked.now) syntax (value_tree text.now) told) }
    ensures noted { OnOk result ((ms : List ModuleTerm) → AreClosingParts ms parts.now →
        NotesTexts (InDocument document (BadInformation ms parts.now.linked.now notification text.now))
        bad.old.first bad.new.first) }
{
    match parts.linked.notifications.get(notification) {
        Some(part) => {
            let place = parts.information_type(notification);
            let value = type_value(parts, document, &part.information, place, text, bad)?;
            Ok(value)
        }
        None => Ok(None),
    }
}

/// The value of an action's reply that a text of a document denotes.
pub fn reply_value(
    parts: &ClosingParts,
    document: u32,
    action: usize,
    text: &ValueText,
    bad: &mut BadTexts,
) -> Result<Option<Value>, AllocError>
    ensures told { IfOk result (λ told. (ms : List ModuleTerm) (part : LinkedAction) (named : LinkedName)
        (syntax : TypeSyntax) → AreClosingParts ms parts.now →
        slice_get parts.now.linked.now.actions.items action ≡ Some part → part.reply ≡ Some named →
        TypeHas ms parts.now.linked.now named syntax →
        TellsValue (linked_arcs parts.now.linked.now) syntax (value_tree text.now) told) }
    ensures noted { OnOk result ((ms : List ModuleTerm) → AreClosingParts ms parts.now →
        NotesTexts (InDocument document (BadReply ms parts.now.linked.now action text.now))
        bad.old.first bad.new.first) }
{
    match parts.linked.actions.get(action) {
        Some(part) => {
            let place = parts.reply_type(action);
            let value = type_value(parts, document, &part.reply, place, text, bad)?;
            Ok(value)
        }
        None => Ok(None),
    }
}
