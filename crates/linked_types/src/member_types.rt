//! The types of attributes, actions and notifications (X.722, sections 8.7, 8.10 and 8.11).

ghost use Rattle.std.specs.Prelude.{List, IfOk, OnOk};
ghost use Rattle.asn1_names.specs.ModuleTerms.{ModuleTerm};
ghost use Rattle.linked_parts.specs.declared.linked.Linked.{Linked as LinkedTerm};
ghost use Rattle.filled_syntaxes.specs.KnownThings.{AreNamedThings};
ghost use Rattle.class_faults.specs.CyclicFaults.{CyclicAttributeFaults};
ghost use Rattle.class_faults.specs.FaultSets.{Notes};
ghost use Rattle.linked_types.specs.NotedDefaults.{BadDefaults};
ghost use Rattle.linked_types.specs.PartTypes.{AreLinkedTypes, AreTold, TellsAction, TellsMember, TellsNotification};
ghost use Rattle.linked_types.specs.TypeTables.{IsTypeTable, NamesTypes};

use crate::derived_attributes::{DerivedAttributes, derived_attributes};
use crate::type_table::TypeTable;
use class_faults::Faults;
use filled_syntaxes::{BadTexts, NamedThings};
use linked_parts::Linked;
use linked_parts::linked::LinkedName;
use std::alloc::AllocError;

/// The places of the types of an action, or of a notification.
#[derive(Clone, Copy)]
pub struct MemberTypes {
    /// WITH INFORMATION SYNTAX
    pub information: Option<usize>,
    /// WITH REPLY SYNTAX
    pub reply: Option<usize>,
}

/// The types of the attributes, actions and notifications of linked parts, by their places.
#[derive(Drop)]
pub struct LinkedTypes {
    /// The types and rules of attributes.
    pub attributes: DerivedAttributes,
    /// The types of actions.
    pub actions: Vec<MemberTypes>,
    /// The types of notifications.
    pub notifications: Vec<MemberTypes>,
}

fn types_of(
    things: &NamedThings,
    table: &mut TypeTable,
    information: &Option<LinkedName>,
    reply: &Option<LinkedName>,
    bad: &mut BadTexts,
) -> Result<MemberTypes, AllocError>
    ensures told { IfOk result (λ types. (ms : List ModuleTerm) (linked : LinkedTerm) →
        AreNamedThings ms linked things.now → IsTypeTable ms linked table.old →
        TellsMember ms linked table.new information.now reply.now types) }
    ensures names { OnOk result ((ms : List ModuleTerm) (linked : LinkedTerm) → AreNamedThings ms linked things.now →
        IsTypeTable ms linked table.old →
        NamesTypes ms linked (BadDefaults ms linked) table.old table.new bad.old.first bad.new.first) }
{
    let information = table.optional_place(things, information, bad)?;
    let reply = table.optional_place(things, reply, bad)?;
    Ok(MemberTypes { information, reply })
}

/// The types of actions.
fn action_types(
    things: &NamedThings,
    linked: &Linked,
    table: &mut TypeTable,
    bad: &mut BadTexts,
) -> Result<Vec<MemberTypes>, AllocError>
    ensures told { IfOk result (λ types. (ms : List ModuleTerm) → AreNamedThings ms linked.now things.now →
        IsTypeTable ms linked.now table.old →
        AreTold (TellsAction ms linked.now table.new) linked.now.actions.items types.items) }
    ensures names { OnOk result ((ms : List ModuleTerm) → AreNamedThings ms linked.now things.now →
        IsTypeTable ms linked.now table.old → NamesTypes ms linked.now (BadDefaults ms linked.now) table.old table.new
        bad.old.first bad.new.first) }
{
    let mut types = Vec::new(things.alloc);
    for action in linked.actions.iter() {
        types.push(types_of(things, table, &action.information, &action.reply, bad)?)?;
    }
    Ok(types)
}

/// The types of notifications.
fn notification_types(
    things: &NamedThings,
    linked: &Linked,
    table: &mut TypeTable,
    bad: &mut BadTexts,
) -> Result<Vec<MemberTypes>, AllocError>
    ensures told { IfOk result (λ types. (ms : List ModuleTerm) → AreNamedThings ms linked.now things.now →
        IsTypeTable ms linked.now table.old →
        AreTold (TellsNotification ms linked.now table.new) linked.now.notifications.items types.items) }
    ensures names { OnOk result ((ms : List ModuleTerm) → AreNamedThings ms linked.now things.now →
        IsTypeTable ms linked.now table.old → NamesTypes ms linked.now (BadDefaults ms linked.now) table.old table.new
        bad.old.first bad.new.first) }
{
    let mut types = Vec::new(things.alloc);
    for notification in linked.notifications.iter() {
        let information = &notification.information;
        types.push(types_of(things, table, information, &notification.reply, bad)?)?;
    }
    Ok(types)
}

/// The types that templates name. Notes the attributes that derive from themselves, and texts of DEFAULT that denote no
/// value; what stood in the table stays there.
pub fn types_of_parts(
    things: &NamedThings,
    linked: &Linked,
    table: &mut TypeTable,
    bad: &mut BadTexts,
    faults: &mut Faults,
) -> Result<LinkedTypes, AllocError>
    ensures noted { OnOk result (Notes (CyclicAttributeFaults linked.now.attributes.items) faults.old.first
        faults.new.first) }
    ensures told { IfOk result (λ types. (ms : List ModuleTerm) → AreNamedThings ms linked.now things.now →
        IsTypeTable ms linked.now table.old → AreLinkedTypes ms linked.now table.new types) }
    ensures names { OnOk result ((ms : List ModuleTerm) → AreNamedThings ms linked.now things.now →
        IsTypeTable ms linked.now table.old → NamesTypes ms linked.now (BadDefaults ms linked.now) table.old table.new
        bad.old.first bad.new.first) }
{
    let attributes = derived_attributes(things, linked, table, bad, faults)?;
    let actions = action_types(things, linked, table, bad)?;
    let notifications = notification_types(things, linked, table, bad)?;
    Ok(LinkedTypes {
        attributes,
        actions,
        notifications,
    })
}
