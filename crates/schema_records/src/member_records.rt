//! The records of attributes, groups, name bindings, actions and notifications (X.722, sections 8.6 to 8.11).

ghost use Rattle.std.specs.Prelude.{◌≡◌, List, All, IfOk, OnOk, Some, slice_get};
ghost use Rattle.asn1_names.specs.ModuleTerms.{ModuleTerm};
ghost use Rattle.linked_parts.specs.declared.linked.LinkedAttribute.{LinkedAttribute as AttributeTerm};
ghost use Rattle.class_faults.specs.AttributeSyntaxes.{AttributeHas};
ghost use Rattle.linked_types.specs.AttributeRules.{ReachesNoCycle, TellsRules, has_word};
ghost use Rattle.linked_types.specs.KnownParts.{AreClosingParts};
ghost use Rattle.linked_types.specs.PartIdentifiers.{AreEach, IsAttributeId, IsClassId};
ghost use Rattle.linked_types.specs.PartTypes.{TellsAction, TellsNotification};
ghost use Rattle.linked_types.specs.TypeTables.{syntax_at};
ghost use Rattle.schema_records.specs.AddedRecords.{Adds, AddsAttribute};
ghost use Rattle.schema_records.specs.MeantParts.{HaveSyntaxes, MeanTypes};
ghost use Rattle.schema_records.specs.MemberRecords.{AreAttributes, IsAction, IsAttribute, IsBinding, IsCreateClause};
ghost use Rattle.schema_records.specs.MemberRecords.{IsField, IsGroup, IsNotification, delete_clause};
ghost use Rattle.schema_records.specs.RegisteredParts.{AreRegisteredParts, HasIdentifier, IsAttributePlace};
ghost use Rattle.schema_records.specs.RegisteredParts.{IsRegisteredBinding, IsRegisteredGroup};
ghost use Rattle.schema_records.specs.RegisteredParts.{IsRegisteredNotification};

use crate::identifiers::{attribute_ids, text_of};
use linked_parts::linked::{
    LinkedAction, LinkedAttribute, LinkedBinding, LinkedField, LinkedGroup, LinkedNotification,
};
use linked_types::{ClosingParts, MemberTypes};
use std::alloc::AllocError;
use term_model::{
    ActRec, ActRecs, AttrRec, AttrRecs, AttributeField, AttributeFields, BindRec, BindRecs,
    BoundClass, CreateClause, DeleteClause, GroupRec, GroupRecs, NoteRec, NoteRecs,
};
use term_values::{Oid, Rules, Syntax};
use token_grammar::Token;
use token_grammar::token_tests::is_word_of;

const NO_RULES: Rules = Rules {
    equality: false,
    ordering: false,
    substrings: false,
    comparison: false,
    intersection: false,
};

/// The rules of the attribute at a place.
fn attribute_rules(parts: &ClosingParts, place: usize) -> Rules
    ensures { (ms : List ModuleTerm) (x : AttributeTerm) → AreClosingParts ms parts.now →
        slice_get parts.now.linked.now.attributes.items place ≡ Some x →
        ReachesNoCycle parts.now.linked.now place → TellsRules parts.now.linked.now place result }
{
    match parts.types.attributes.rules.get(place) {
        Some(rules) => *rules,
        None => NO_RULES,
    }
}

/// The attribute at a place, which is registered under this identifier and has this syntax.
fn attribute_record(
    parts: &ClosingParts,
    place: usize,
    part: &LinkedAttribute,
    id: &Oid,
    syntax: &Syntax,
) -> Result<AttrRec, AllocError>
    ensures { IfOk result (λ x. (ms : List ModuleTerm) → AreClosingParts ms parts.now →
        slice_get parts.now.linked.now.attributes.items place ≡ Some part.now →
        part.now.head.identifier ≡ Some id.now → AttributeHas ms parts.now.linked.now place syntax.now →
        IsAttribute ms parts.now.linked.now place x) }
{
    Ok(AttrRec {
        id: id.copy(parts.alloc)?,
        label: text_of(parts.alloc, &part.head.label)?,
        syntax: syntax.copy(parts.alloc)?,
        rules: attribute_rules(parts, place),
    })
}

/// Appends the attribute at a place, where it is registered and has a syntax.
fn push_attribute(
    parts: &ClosingParts,
    place: usize,
    part: &LinkedAttribute,
    records: &mut AttrRecs,
) -> Result<(), AllocError>
    ensures { OnOk result ((ms : List ModuleTerm) → AreClosingParts ms parts.now →
        HaveSyntaxes ms parts.now.linked.now →
        slice_get parts.now.linked.now.attributes.items place ≡ Some part.now →
        AddsAttribute ms parts.now.linked.now place part.now records.old records.new) }
{
    match &part.head.identifier {
        Some(id) => match parts.attribute_syntax(place) {
            Some(syntax) => {
                let found = attribute_record(parts, place, part, id, syntax)?;
                records.push(parts.alloc, found)?;
                Ok(())
            }
            None => Ok(()),
        },
        None => Ok(()),
    }
}

/// The attributes that are registered.
pub fn attribute_records(parts: &ClosingParts) -> Result<AttrRecs, AllocError>
    ensures { IfOk result (λ records. (ms : List ModuleTerm) → AreClosingParts ms parts.now →
        HaveSyntaxes ms parts.now.linked.now →
        AreAttributes ms parts.now.linked.now 0 parts.now.linked.now.attributes.items records) }
{
    let mut records = AttrRecs::new(parts.alloc);
    for (place, part) in parts.linked.attributes.iter().enumerate() {
        push_attribute(parts, place, part, &mut records)?;
    }
    Ok(records)
}

fn group_record(parts: &ClosingParts, part: &LinkedGroup, id: &Oid) -> Result<GroupRec, AllocError>
    ensures { IfOk result (λ x. part.now.head.identifier ≡ Some id.now →
        All (IsAttributePlace parts.now.linked.now) part.now.elements.items →
        IsGroup parts.now.linked.now part.now x) }
{
    Ok(GroupRec {
        id: id.copy(parts.alloc)?,
        label: text_of(parts.alloc, &part.head.label)?,
        members: attribute_ids(parts, part.elements.as_slice())?,
        fixed: part.fixed,
    })
}

/// Appends a group, where it is registered.
fn push_group(
    parts: &ClosingParts,
    part: &LinkedGroup,
    items: &mut Vec<GroupRec>,
) -> Result<(), AllocError>
    ensures { OnOk result (IsRegisteredGroup parts.now.linked.now part.now →
        Adds (IsGroup parts.now.linked.now) part.now items.old.items items.new.items) }
{
    match &part.head.identifier {
        Some(id) => {
            items.push(group_record(parts, part, id)?)?;
            Ok(())
        }
        None => Ok(()),
    }
}

/// The attribute groups.
pub fn group_records(parts: &ClosingParts) -> Result<GroupRecs, AllocError>
    ensures { IfOk result (λ records. AreRegisteredParts parts.now.linked.now →
        AreEach (IsGroup parts.now.linked.now) parts.now.linked.now.groups.items records) }
{
    let mut items = Vec::new(parts.alloc);
    for part in parts.linked.groups.iter() {
        push_group(parts, part, &mut items)?;
    }
    Ok(GroupRecs { items })
}

fn has_word(words: &[Token], word: &str) -> bool
    ensures { result ≡ has_word word.now words.now }
{
    words.iter().any(|token| is_word_of(token, word))
}

/// CREATE, by the words behind it.
fn create_clause(words: &Option<Vec<Token>>) -> Option<CreateClause>
    ensures { IsCreateClause words.now result }
{
    match words {
        Some(words) => Some(CreateClause {
            with_reference_object: has_word(words.as_slice(), "WITH-REFERENCE-OBJECT"),
            with_automatic_instance_naming: has_word(
                words.as_slice(),
                "WITH-AUTOMATIC-INSTANCE-NAMING",
            ),
        }),
        None => None,
    }
}

/// DELETE, by the word behind it; alone it is ONLY-IF-NO-CONTAINED-OBJECTS.
fn delete_clause(words: &Option<Vec<Token>>) -> Option<DeleteClause>
    ensures { result ≡ delete_clause words.now }
{
    match words {
        Some(words) => {
            if has_word(words.as_slice(), "DELETES-CONTAINED-OBJECTS") {
                Some(DeleteClause::DeletesContainedObjects)
            } else {
                Some(DeleteClause::OnlyIfNoContainedObjects)
            }
        }
        None => None,
    }
}

/// What a name binding names: its own identifier, its classes and the attribute by which it names.
#[derive(Clone, Copy)]
struct BindingIds<'i> {
    id: &'i Oid,
    subordinate: &'i Oid,
    superior: &'i Oid,
    attribute: &'i Oid,
}

/// A class of a name binding.
fn bound_class(
    parts: &ClosingParts,
    class: &Oid,
    subclasses: bool,
) -> Result<BoundClass, AllocError>
    ensures class { IfOk result (λ x. x.class ≡ class.now) }
    ensures subclasses { IfOk result (λ x. x.subclasses ≡ subclasses) }
{
    Ok(BoundClass {
        class: class.copy(parts.alloc)?,
        subclasses,
    })
}

fn binding_record(
    parts: &ClosingParts,
    part: &LinkedBinding,
    ids: BindingIds,
) -> Result<BindRec, AllocError>
    ensures { IfOk result (λ x. part.now.head.identifier ≡ Some ids.entry.id.now →
        IsClassId parts.now.linked.now part.now.subordinate ids.entry.subordinate.now →
        IsClassId parts.now.linked.now part.now.superior ids.entry.superior.now →
        IsAttributeId parts.now.linked.now part.now.attribute ids.entry.attribute.now →
        IsBinding parts.now.linked.now part.now x) }
{
    Ok(BindRec {
        id: ids.id.copy(parts.alloc)?,
        label: text_of(parts.alloc, &part.head.label)?,
        subordinate: bound_class(parts, ids.subordinate, part.subordinate_subclasses)?,
        superior: bound_class(parts, ids.superior, part.superior_subclasses)?,
        attribute: ids.attribute.copy(parts.alloc)?,
        create: create_clause(&part.create),
        delete: delete_clause(&part.delete),
    })
}

/// Appends a name binding, where what it names is registered.
fn push_binding(
    parts: &ClosingParts,
    part: &LinkedBinding,
    items: &mut Vec<BindRec>,
) -> Result<(), AllocError>
    ensures { OnOk result (IsRegisteredBinding parts.now.linked.now part.now →
        Adds (IsBinding parts.now.linked.now) part.now items.old.items items.new.items) }
{
    let Some(id) = &part.head.identifier else {
        return Ok(());
    };
    let Some(subordinate) = parts.class_id(part.subordinate) else {
        return Ok(());
    };
    let Some(superior) = parts.class_id(part.superior) else {
        return Ok(());
    };
    let Some(attribute) = parts.attribute_id(part.attribute) else {
        return Ok(());
    };
    let ids = BindingIds {
        id,
        subordinate,
        superior,
        attribute,
    };
    items.push(binding_record(parts, part, ids)?)?;
    Ok(())
}

/// The name bindings.
pub fn binding_records(parts: &ClosingParts) -> Result<BindRecs, AllocError>
    ensures { IfOk result (λ records. AreRegisteredParts parts.now.linked.now →
        AreEach (IsBinding parts.now.linked.now) parts.now.linked.now.bindings.items records) }
{
    let mut items = Vec::new(parts.alloc);
    for part in parts.linked.bindings.iter() {
        push_binding(parts, part, &mut items)?;
    }
    Ok(BindRecs { items })
}

/// A copy of the syntax of a type that may be missing.
fn syntax_at(parts: &ClosingParts, place: Option<usize>) -> Result<Option<Syntax>, AllocError>
    ensures { IfOk result (λ syntax. syntax ≡ syntax_at parts.now.table.now place) }
{
    match parts.table.syntax(place) {
        Some(syntax) => Ok(Some(syntax.copy(parts.alloc)?)),
        None => Ok(None),
    }
}

/// The syntaxes of information and reply.
fn member_syntaxes(
    parts: &ClosingParts,
    types: &MemberTypes,
) -> Result<(Option<Syntax>, Option<Syntax>), AllocError>
    ensures information { IfOk result (λ both. both.0 ≡ syntax_at parts.now.table.now types.now.information) }
    ensures reply { IfOk result (λ both. both.1 ≡ syntax_at parts.now.table.now types.now.reply) }
{
    let information = syntax_at(parts, types.information)?;
    let reply = syntax_at(parts, types.reply)?;
    Ok((information, reply))
}

fn action_record(
    parts: &ClosingParts,
    part: &LinkedAction,
    id: &Oid,
    types: &MemberTypes,
) -> Result<ActRec, AllocError>
    ensures { IfOk result (λ x. (ms : List ModuleTerm) → part.now.head.identifier ≡ Some id.now →
        TellsAction ms parts.now.linked.now parts.now.table.now part.now types.now →
        MeanTypes ms parts.now.linked.now part.now.information part.now.reply →
        IsAction ms parts.now.linked.now part.now x) }
{
    let id = id.copy(parts.alloc)?;
    let label = text_of(parts.alloc, &part.head.label)?;
    let (information, reply) = member_syntaxes(parts, types)?;
    Ok(ActRec {
        id,
        label,
        confirmed: part.confirmed,
        information,
        reply,
    })
}

/// Appends the action at a place, where it is registered.
fn push_action(
    parts: &ClosingParts,
    place: usize,
    part: &LinkedAction,
    items: &mut Vec<ActRec>,
) -> Result<(), AllocError>
    ensures { OnOk result ((ms : List ModuleTerm) → AreClosingParts ms parts.now →
        slice_get parts.now.linked.now.actions.items place ≡ Some part.now → HasIdentifier part.now.head →
        MeanTypes ms parts.now.linked.now part.now.information part.now.reply →
        Adds (IsAction ms parts.now.linked.now) part.now items.old.items items.new.items) }
{
    match &part.head.identifier {
        Some(id) => match parts.types.actions.get(place) {
            Some(types) => {
                items.push(action_record(parts, part, id, types)?)?;
                Ok(())
            }
            None => Ok(()),
        },
        None => Ok(()),
    }
}

/// The actions.
pub fn action_records(parts: &ClosingParts) -> Result<ActRecs, AllocError>
    ensures { IfOk result (λ records. (ms : List ModuleTerm) → AreClosingParts ms parts.now →
        AreRegisteredParts parts.now.linked.now → HaveSyntaxes ms parts.now.linked.now →
        AreEach (IsAction ms parts.now.linked.now) parts.now.linked.now.actions.items records) }
{
    let mut items = Vec::new(parts.alloc);
    for (place, part) in parts.linked.actions.iter().enumerate() {
        push_action(parts, place, part, &mut items)?;
    }
    Ok(ActRecs { items })
}

fn attribute_field(
    parts: &ClosingParts,
    field: &LinkedField,
    attribute: &Oid,
) -> Result<AttributeField, AllocError>
    ensures { IfOk result (λ x. IsAttributeId parts.now.linked.now field.now.attribute attribute.now →
        IsField parts.now.linked.now field.now x) }
{
    Ok(AttributeField {
        component: text_of(parts.alloc, &field.name)?,
        attribute: attribute.copy(parts.alloc)?,
    })
}

/// Appends a field, where its attribute is registered.
fn push_field(
    parts: &ClosingParts,
    field: &LinkedField,
    items: &mut Vec<AttributeField>,
) -> Result<(), AllocError>
    ensures { OnOk result (IsAttributePlace parts.now.linked.now field.now.attribute →
        Adds (IsField parts.now.linked.now) field.now items.old.items items.new.items) }
{
    match parts.attribute_id(field.attribute) {
        Some(attribute) => {
            items.push(attribute_field(parts, field, attribute)?)?;
            Ok(())
        }
        None => Ok(()),
    }
}

/// The fields of a notification's information that are values of attributes.
fn attribute_fields(
    parts: &ClosingParts,
    fields: &[LinkedField],
) -> Result<AttributeFields, AllocError>
    ensures { IfOk result (λ xs. All (λ field. IsAttributePlace parts.now.linked.now field.attribute) fields.now →
        AreEach (IsField parts.now.linked.now) fields.now xs) }
{
    let mut items = Vec::new(parts.alloc);
    for field in fields {
        push_field(parts, field, &mut items)?;
    }
    Ok(AttributeFields { items })
}

fn notification_record(
    parts: &ClosingParts,
    part: &LinkedNotification,
    id: &Oid,
    types: &MemberTypes,
) -> Result<NoteRec, AllocError>
    ensures { IfOk result (λ x. (ms : List ModuleTerm) → part.now.head.identifier ≡ Some id.now →
        All (λ field. IsAttributePlace parts.now.linked.now field.attribute) part.now.fields.items →
        TellsNotification ms parts.now.linked.now parts.now.table.now part.now types.now →
        MeanTypes ms parts.now.linked.now part.now.information part.now.reply →
        IsNotification ms parts.now.linked.now part.now x) }
{
    let id = id.copy(parts.alloc)?;
    let label = text_of(parts.alloc, &part.head.label)?;
    let fields = attribute_fields(parts, part.fields.as_slice())?;
    let (information, reply) = member_syntaxes(parts, types)?;
    Ok(NoteRec {
        id,
        label,
        information,
        fields,
        reply,
    })
}

/// Appends the notification at a place, where it is registered.
fn push_notification(
    parts: &ClosingParts,
    place: usize,
    part: &LinkedNotification,
    items: &mut Vec<NoteRec>,
) -> Result<(), AllocError>
    ensures { OnOk result ((ms : List ModuleTerm) → AreClosingParts ms parts.now →
        slice_get parts.now.linked.now.notifications.items place ≡ Some part.now →
        IsRegisteredNotification parts.now.linked.now part.now →
        MeanTypes ms parts.now.linked.now part.now.information part.now.reply →
        Adds (IsNotification ms parts.now.linked.now) part.now items.old.items items.new.items) }
{
    match &part.head.identifier {
        Some(id) => match parts.types.notifications.get(place) {
            Some(types) => {
                items.push(notification_record(parts, part, id, types)?)?;
                Ok(())
            }
            None => Ok(()),
        },
        None => Ok(()),
    }
}

/// The notifications.
pub fn notification_records(parts: &ClosingParts) -> Result<NoteRecs, AllocError>
    ensures { IfOk result (λ records. (ms : List ModuleTerm) → AreClosingParts ms parts.now →
        AreRegisteredParts parts.now.linked.now → HaveSyntaxes ms parts.now.linked.now →
        AreEach (IsNotification ms parts.now.linked.now) parts.now.linked.now.notifications.items records) }
{
    let mut items = Vec::new(parts.alloc);
    for (place, part) in parts.linked.notifications.iter().enumerate() {
        push_notification(parts, place, part, &mut items)?;
    }
    Ok(NoteRecs { items })
}
