//! The labels of templates, and the identifiers by which records name them (X.722, section 8).

ghost use Rattle.std.specs.Prelude.{◌≡◌, All, IfOk};
ghost use Rattle.linked_parts.specs.declared.linked.LinkedAction.{LinkedAction};
ghost use Rattle.linked_parts.specs.declared.linked.LinkedNotification.{LinkedNotification};
ghost use Rattle.linked_types.specs.PartIdentifiers.{AreEach, AreIdentified, IsAttributeId, IsClassId};
ghost use Rattle.schema_records.specs.RegisteredParts.{IsActionPlace, IsAttributePlace, IsClassPlace};
ghost use Rattle.schema_records.specs.RegisteredParts.{IsNotificationPlace};

use linked_types::ClosingParts;
use linked_types::closing_parts::push_id;
use std::alloc::{AllocError, Global};
use term_model::Oids;
use term_values::Bytes;
use token_grammar::Token;

/// The text of a label, or of another token.
pub(crate) fn text_of(alloc: Global, token: &Token) -> Result<Bytes, AllocError>
    ensures { IfOk result (λ text. text ≡ token.now.text) }
{
    Bytes::from_slice(alloc, token.text.as_slice())
}

/// The identifiers of attributes, by their places.
pub(crate) fn attribute_ids(parts: &ClosingParts, places: &[usize]) -> Result<Oids, AllocError>
    ensures { IfOk result (λ ids. All (IsAttributePlace parts.now.linked.now) places.now →
        AreEach (IsAttributeId parts.now.linked.now) places.now ids) }
{
    let mut items = Vec::new(parts.alloc);
    for place in places {
        push_id(parts.alloc, &mut items, parts.attribute_id(*place))?;
    }
    Ok(Oids { items })
}

/// The identifiers of classes.
pub(crate) fn class_ids(parts: &ClosingParts, places: &[usize]) -> Result<Oids, AllocError>
    ensures { IfOk result (λ ids. All (IsClassPlace parts.now.linked.now) places.now →
        AreEach (IsClassId parts.now.linked.now) places.now ids) }
{
    let mut items = Vec::new(parts.alloc);
    for place in places {
        push_id(parts.alloc, &mut items, parts.class_id(*place))?;
    }
    Ok(Oids { items })
}

/// The identifiers of actions.
pub(crate) fn action_ids(parts: &ClosingParts, places: &[usize]) -> Result<Oids, AllocError>
    ensures { IfOk result (λ ids. All (IsActionPlace parts.now.linked.now) places.now →
        AreIdentified (λ (x : LinkedAction). x.head) parts.now.linked.now.actions.items places.now ids) }
{
    let mut items = Vec::new(parts.alloc);
    for place in places {
        push_id(parts.alloc, &mut items, parts.action_id(*place))?;
    }
    Ok(Oids { items })
}

/// The identifiers of notifications.
pub(crate) fn notification_ids(parts: &ClosingParts, places: &[usize]) -> Result<Oids, AllocError>
    ensures { IfOk result (λ ids. All (IsNotificationPlace parts.now.linked.now) places.now →
        AreIdentified (λ (x : LinkedNotification). x.head) parts.now.linked.now.notifications.items places.now ids) }
{
    let mut items = Vec::new(parts.alloc);
    for place in places {
        push_id(parts.alloc, &mut items, parts.notification_id(*place))?;
    }
    Ok(Oids { items })
}
