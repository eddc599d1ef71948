//! Modifications: X.711, section 7.4, m-Set.

ghost use Rattle.std.specs.Prelude.{◌≡◌, IfOk, option_and_then};
ghost use Rattle.std.specs.Option.{option_copied, option_map};
ghost use Rattle.term_values.specs.Tree.{listed};
ghost use Rattle.term_model.specs.Assertions.{attribute_given};
ghost use Rattle.term_model.specs.ArgumentRows.{all_in};
ghost use Rattle.term_model.specs.ScopedReading.{change_behind, change_in, change_inside, change_with, operator_of};

use argument_parts::asserting::{attribute_given, copy_id, read_id};
use argument_parts::parts::{at_most_one, inside_of, integer_of};
use argument_parts::rows::at_front;
use std::alloc::{AllocError, Global};
use term_model::request::REPLACE;
use term_model::{AttrRecs, Change, Changes, Given, IdRef};
use term_values::{Tag, Tree};

/// The operator of a modification.
fn operator_of(tree: Option<&Tree>) -> Option<i64>
    ensures { result ≡ operator_of (option_copied tree.entry) }
{
    match tree {
        None => Some(REPLACE),
        Some(tree) => integer_of(tree, Tag::context(2)),
    }
}

/// The value of a modification, where one came.
fn given_value(
    alloc: Global,
    records: &AttrRecs,
    id: &IdRef,
    value: Option<&Tree>,
) -> Result<Option<Given>, AllocError>
    ensures { IfOk result (λ given.
        given ≡ option_map (attribute_given records.now id.now) (option_copied value.entry)) }
{
    match value {
        None => Ok(None),
        Some(tree) => {
            let id = copy_id(alloc, id)?;
            Ok(Some(attribute_given(alloc, records, id, tree)?))
        }
    }
}

fn change_with(
    alloc: Global,
    records: &AttrRecs,
    operator: i64,
    id: IdRef,
    value: Option<&Tree>,
) -> Result<Change, AllocError>
    ensures { IfOk result (λ change.
        change ≡ change_with records.now operator id (option_copied value.entry)) }
{
    let given = given_value(alloc, records, &id, value)?;
    Ok(Change {
        operator,
        id,
        given,
    })
}

/// A modification behind its operator.
fn change_behind(
    alloc: Global,
    records: &AttrRecs,
    operator: i64,
    trees: &[Tree],
) -> Result<Option<Change>, AllocError>
    ensures { IfOk result (λ change. change ≡ change_behind records.now operator (listed trees.now)) }
{
    match trees.split_first() {
        None => Ok(None),
        Some((id, rest)) => match at_most_one(rest) {
            None => Ok(None),
            Some(value) => match read_id(alloc, 0, 1, id)? {
                None => Ok(None),
                Some(id) => Ok(Some(change_with(alloc, records, operator, id, value)?)),
            },
        },
    }
}

fn change_inside(
    alloc: Global,
    records: &AttrRecs,
    trees: &[Tree],
) -> Result<Option<Change>, AllocError>
    ensures { IfOk result (λ change. change ≡ change_inside records.now (listed trees.now)) }
{
    let (operator, rest) = at_front(2, trees);
    match operator_of(operator) {
        None => Ok(None),
        Some(operator) => change_behind(alloc, records, operator, rest),
    }
}

fn read_change(alloc: Global, records: &AttrRecs, tree: &Tree) -> Result<Option<Change>, AllocError>
    ensures { IfOk result (λ change. change ≡ change_in records.now tree.now) }
{
    match inside_of(tree, Tag::SEQUENCE) {
        None => Ok(None),
        Some(inside) => change_inside(alloc, records, inside),
    }
}

/// The modifications in a list, in their order.
pub fn read_changes(
    alloc: Global,
    records: &AttrRecs,
    trees: &[Tree],
) -> Result<Option<Changes>, AllocError>
    ensures { IfOk result (λ changes. changes ≡ all_in (change_in records.now) (listed trees.now)) }
{
    let mut items = Vec::new(alloc);
    for tree in trees {
        match read_change(alloc, records, tree)? {
            None => return Ok(None),
            Some(change) => items.push(change)?,
        }
    }
    Ok(Some(Changes { items }))
}
