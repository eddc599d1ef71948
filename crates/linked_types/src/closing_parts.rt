//! What is known of linked parts while their classes are closed.

ghost use Rattle.std.specs.Prelude.{◌≡◌, ◌++◌, ◌↔◌, List, Some, IfOk, OnOk, option_to_list, slice_get};
ghost use Rattle.std.specs.Option.{option_copied};
ghost use Rattle.term_values.specs.Syntaxes.{TypeSyntax};
ghost use Rattle.asn1_names.specs.ModuleTerms.{ModuleTerm};
ghost use Rattle.linked_parts.specs.declared.linked.LinkedAction.{LinkedAction};
ghost use Rattle.linked_parts.specs.declared.linked.LinkedNotification.{LinkedNotification};
ghost use Rattle.class_faults.specs.AttributeSyntaxes.{AttributeHas};
ghost use Rattle.linked_types.specs.KnownParts.{AreClosingParts, identifier_at};
ghost use Rattle.linked_types.specs.PartTypes.{TellsOptionalType};

use crate::member_types::LinkedTypes;
use crate::type_table::TypeTable;
use filled_syntaxes::NamedThings;
use linked_parts::Linked;
use std::alloc::{AllocError, Global};
use term_values::{Oid, Syntax, Value};

/// Linked parts, with the types and values that their names mean.
#[derive(Clone, Copy)]
pub struct ClosingParts<'a, 't, 'p> {
    /// What gives memory.
    pub alloc: Global,
    /// The parts.
    pub linked: &'p Linked,
    /// What names mean.
    pub things: &'p NamedThings<'a, 't>,
    /// The types that are named.
    pub table: &'p TypeTable,
    /// The types of attributes, actions and notifications.
    pub types: &'p LinkedTypes,
    /// The values of assignments, by their numbers.
    pub values: &'p [Option<Value>],
}

/// A copy of an identifier that may be missing.
pub fn copied(alloc: Global, id: Option<&Oid>) -> Result<Option<Oid>, AllocError>
    ensures { IfOk result (λ copy. copy ≡ option_copied id.entry) }
{
    match id {
        Some(id) => Ok(Some(id.copy(alloc)?)),
        None => Ok(None),
    }
}

/// Appends an identifier, where it is there.
pub fn push_id(alloc: Global, ids: &mut Vec<Oid>, id: Option<&Oid>) -> Result<(), AllocError>
    ensures { OnOk result (ids.new.items ≡ ids.old.items ++ option_to_list (option_copied id.entry)) }
{
    match id {
        Some(id) => {
            ids.push(id.copy(alloc)?)?;
            Ok(())
        }
        None => Ok(()),
    }
}

impl<'p> ClosingParts<'_, '_, 'p> {
    /// The syntax of an attribute; none of one that derives from itself.
    pub fn attribute_syntax(&self, attribute: usize) -> Option<&'p Syntax>
        ensures { (ms : List ModuleTerm) → AreClosingParts ms self.now → (syntax : TypeSyntax) →
            (option_copied result ≡ Some syntax) ↔ AttributeHas ms self.now.linked.now attribute syntax }
    {
        match self.types.attributes.types.get(attribute) {
            Some(place) => self.table.syntax(*place),
            None => None,
        }
    }

    /// The place of the type of an action's reply.
    pub fn reply_type(&self, action: usize) -> Option<usize>
        ensures { (ms : List ModuleTerm) (x : LinkedAction) → AreClosingParts ms self.now →
            slice_get self.now.linked.now.actions.items action ≡ Some x →
            TellsOptionalType ms self.now.linked.now self.now.table.now x.reply result }
    {
        match self.types.actions.get(action) {
            Some(types) => types.reply,
            None => None,
        }
    }

    /// The place of the type of a notification's information.
    pub fn information_type(&self, notification: usize) -> Option<usize>
        ensures { (ms : List ModuleTerm) (x : LinkedNotification) → AreClosingParts ms self.now →
            slice_get self.now.linked.now.notifications.items notification ≡ Some x →
            TellsOptionalType ms self.now.linked.now self.now.table.now x.information result }
    {
        match self.types.notifications.get(notification) {
            Some(types) => types.information,
            None => None,
        }
    }

    /// The identifier of a class.
    pub fn class_id(&self, place: usize) -> Option<&'p Oid>
        ensures { option_copied result ≡ identifier_at (λ x. x.head) self.now.linked.now.classes.items place }
    {
        match self.linked.classes.get(place) {
            Some(part) => part.head.identifier.as_ref(),
            None => None,
        }
    }

    /// The identifier of an attribute.
    pub fn attribute_id(&self, place: usize) -> Option<&'p Oid>
        ensures { option_copied result ≡ identifier_at (λ x. x.head) self.now.linked.now.attributes.items place }
    {
        match self.linked.attributes.get(place) {
            Some(part) => part.head.identifier.as_ref(),
            None => None,
        }
    }

    /// The identifier of a group.
    pub fn group_id(&self, place: usize) -> Option<&'p Oid>
        ensures { option_copied result ≡ identifier_at (λ x. x.head) self.now.linked.now.groups.items place }
    {
        match self.linked.groups.get(place) {
            Some(part) => part.head.identifier.as_ref(),
            None => None,
        }
    }

    /// The identifier of an action.
    pub fn action_id(&self, place: usize) -> Option<&'p Oid>
        ensures { option_copied result ≡ identifier_at (λ x. x.head) self.now.linked.now.actions.items place }
    {
        match self.linked.actions.get(place) {
            Some(part) => part.head.identifier.as_ref(),
            None => None,
        }
    }

    /// The identifier of a notification.
    pub fn notification_id(&self, place: usize) -> Option<&'p Oid>
        ensures { option_copied result ≡ identifier_at (λ x. x.head) self.now.linked.now.notifications.items place }
    {
        match self.linked.notifications.get(place) {
            Some(part) => part.head.identifier.as_ref(),
            None => None,
        }
    }
}
