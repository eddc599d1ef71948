//! Actions: X.711, section 7.4, m-Action.

ghost use Rattle.std.specs.Prelude.{◌≡◌, IfOk, option_and_then, find};
ghost use Rattle.std.specs.Option.{option_copied, option_map};
ghost use Rattle.term_values.specs.Tree.{listed};
ghost use Rattle.term_model.specs.declared.actions.ActRec.{ActRec};
ghost use Rattle.term_model.specs.Assertions.{given_of};
ghost use Rattle.term_model.specs.Comparing.{is_same_oid};
ghost use Rattle.term_model.specs.ArgumentRows.{at_end, held_under};
ghost use Rattle.term_model.specs.ScopedReading.{action_behind, action_inside, action_syntax, action_with};

use argument_parts::asserting::{copy_id, given, read_id};
use argument_parts::rows::{at_end, held_under};
use std::alloc::{AllocError, Global};
use term_model::{ActRec, ActRecs, Given, IdRef};
use term_values::{Oid, Syntax, Tree};

/// The first record with this identifier.
fn find_action<'a>(records: &'a [ActRec], id: &Oid) -> Option<&'a ActRec>
    ensures { option_copied result
        ≡ find (λ (of_action : ActRec). is_same_oid of_action.id id.now) records.now }
{
    for action in records {
        if action.id == *id {
            return Some(action);
        }
    }
    None
}

/// The syntax of the information of an action, where it has one.
fn information(action: Option<&ActRec>) -> Option<&Syntax>
    ensures { option_copied result
        ≡ option_and_then (λ (of_action : ActRec). of_action.information) (option_copied action.entry) }
{
    match action {
        None => None,
        Some(action) => match &action.information {
            None => None,
            Some(syntax) => Some(syntax),
        },
    }
}

/// The syntax of the information of the action that is named, where it is known and has one.
fn action_syntax<'a>(records: &'a ActRecs, id: &IdRef) -> Option<&'a Syntax>
    ensures { option_copied result ≡ action_syntax records.now id.now }
{
    match id {
        IdRef::Global(id) => information(find_action(records.items.as_slice(), id)),
        IdRef::Local(_) => None,
    }
}

/// The assertion of what is identified, where a value came.
pub fn given_any(
    alloc: Global,
    syntax: Option<&Syntax>,
    id: &IdRef,
    value: Option<&Tree>,
) -> Result<Option<Given>, AllocError>
    ensures { IfOk result (λ found.
        found ≡ option_map (given_of (option_copied syntax.entry) id.now) (option_copied value.entry)) }
{
    match value {
        None => Ok(None),
        Some(tree) => {
            let id = copy_id(alloc, id)?;
            Ok(Some(given(alloc, syntax, id, tree)?))
        }
    }
}

/// The action with its argument, where one came.
fn action_with(
    alloc: Global,
    records: &ActRecs,
    id: IdRef,
    value: Option<&Tree>,
) -> Result<(IdRef, Option<Given>), AllocError>
    ensures { IfOk result (λ action. action ≡ action_with records.now id (option_copied value.entry)) }
{
    let argument = given_any(alloc, action_syntax(records, &id), &id, value)?;
    Ok((id, argument))
}

/// The tree of an action's argument, behind its identifier.
fn argument_tree(trees: &[Tree]) -> Option<Option<&Tree>>
    ensures { option_map option_copied result
        ≡ option_and_then (held_under 4) (at_end 4 (listed trees.now)) }
{
    held_under(4, at_end(4, trees)?)
}

/// An action behind its identifier.
fn action_behind(
    alloc: Global,
    records: &ActRecs,
    id: &Tree,
    trees: &[Tree],
) -> Result<Option<(IdRef, Option<Given>)>, AllocError>
    ensures { IfOk result (λ action. action ≡ action_behind records.now id.now (listed trees.now)) }
{
    match argument_tree(trees) {
        None => Ok(None),
        Some(value) => match read_id(alloc, 2, 3, id)? {
            None => Ok(None),
            Some(id) => Ok(Some(action_with(alloc, records, id, value)?)),
        },
    }
}

/// actionInfo: the action, and its argument where one came.
pub fn read_action(
    alloc: Global,
    records: &ActRecs,
    trees: &[Tree],
) -> Result<Option<(IdRef, Option<Given>)>, AllocError>
    ensures { IfOk result (λ action. action ≡ action_inside records.now (listed trees.now)) }
{
    match trees.split_first() {
        None => Ok(None),
        Some((id, rest)) => action_behind(alloc, records, id, rest),
    }
}
