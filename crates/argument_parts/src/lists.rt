//! Identifiers and attributes in lists: X.711, section 7.4.

ghost use Rattle.std.specs.Prelude.{◌≡◌, IfOk};
ghost use Rattle.term_values.specs.Tree.{listed};
ghost use Rattle.term_model.specs.Assertions.{id_in};
ghost use Rattle.term_model.specs.ArgumentRows.{all_in};
ghost use Rattle.term_model.specs.CreateReading.{attribute_in};

use crate::asserting::{read_given, read_id};
use crate::parts::inside_of;
use std::alloc::{AllocError, Global};
use term_model::{AttrRecs, Given, Givens, Ids};
use term_values::{Tag, Tree};

/// The attributes' identifiers in a list, in their order.
pub fn read_ids(alloc: Global, trees: &[Tree]) -> Result<Option<Ids>, AllocError>
    ensures { IfOk result (λ ids. ids ≡ all_in (id_in 0 1) (listed trees.now)) }
{
    let mut items = Vec::new(alloc);
    for tree in trees {
        match read_id(alloc, 0, 1, tree)? {
            None => return Ok(None),
            Some(id) => items.push(id)?,
        }
    }
    Ok(Some(Ids { items }))
}

fn read_attribute(
    alloc: Global,
    records: &AttrRecs,
    tree: &Tree,
) -> Result<Option<Given>, AllocError>
    ensures { IfOk result (λ given. given ≡ attribute_in records.now tree.now) }
{
    match inside_of(tree, Tag::SEQUENCE) {
        None => Ok(None),
        Some(inside) => read_given(alloc, records, inside),
    }
}

/// The attributes in a list, in their order.
pub fn read_givens(
    alloc: Global,
    records: &AttrRecs,
    trees: &[Tree],
) -> Result<Option<Givens>, AllocError>
    ensures { IfOk result (λ given. given ≡ all_in (attribute_in records.now) (listed trees.now)) }
{
    let mut items = Vec::new(alloc);
    for tree in trees {
        match read_attribute(alloc, records, tree)? {
            None => return Ok(None),
            Some(given) => items.push(given)?,
        }
    }
    Ok(Some(Givens { items }))
}
