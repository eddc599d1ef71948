//! Items of filters in requests: X.711, section 7.5, type FilterItem.

ghost use Rattle.std.specs.Prelude.{◌≡◌, IfOk, option_and_then};
ghost use Rattle.std.specs.Option.{option_map};
ghost use Rattle.term_values.specs.Typed.TypedValue.{Pick};
ghost use Rattle.term_model.specs.declared.filter_item.Item.TheVariants as items;
ghost use Rattle.term_model.specs.Assertions.{given_in};
ghost use Rattle.term_model.specs.FilterReading.{assertion_by, item_in, one_id_in, one_item_in, piece_in, piece_kind};
ghost use Rattle.term_model.specs.FilterReading.{piece_of, pieces_in, substrings_of};
ghost use Rattle.term_model.specs.FilterTruth.{asserted_pieces};

use crate::given_reading::{GLOBAL_FORM, LOCAL_FORM, is_context, read_components, read_id};
use std::alloc::{AllocError, Global};
use std::boxed::Box;
use term_model::filter_item::{ANY_PIECE, FINAL_PIECE, INITIAL_PIECE};
use term_model::{Given, IdRef, Item, Piece, Pieces, Set};
use term_values::{Body, Tag, Tree, Trees, Value, ValueForm, Values};

/// The tags of items.
const EQUALITY: u32 = 0;

const SUBSTRINGS: u32 = 1;

const GREATER_OR_EQUAL: u32 = 2;

const LESS_OR_EQUAL: u32 = 3;

const PRESENT: u32 = 4;

const SUBSET_OF: u32 = 5;

const SUPERSET_OF: u32 = 6;

const MEETS: u32 = 7;

/// The tags of pieces: initialString, anyString, finalString.
const INITIAL: u32 = 0;

const ANY: u32 = 1;

const FINAL: u32 = 2;

/// The kind of a piece with this tag.
fn piece_kind(tag: Tag) -> Option<u8>
    ensures { result ≡ piece_kind tag }
{
    if is_context(INITIAL, tag) {
        Some(INITIAL_PIECE)
    } else if is_context(ANY, tag) {
        Some(ANY_PIECE)
    } else if is_context(FINAL, tag) {
        Some(FINAL_PIECE)
    } else {
        None
    }
}

/// A piece of this kind.
fn piece_under(
    alloc: Global,
    set: &Set,
    kind: u8,
    inside: &Trees,
) -> Result<Option<Piece>, AllocError>
    ensures { IfOk result (λ found. found
        ≡ option_map (piece_of kind) (given_in set.now.attributes inside.now)) }
{
    match read_components(alloc, set, inside)? {
        Some(given) => Ok(Some(Piece { kind, given })),
        None => Ok(None),
    }
}

/// The piece that a tree gives, or none.
fn read_piece(alloc: Global, set: &Set, tree: &Tree) -> Result<Option<Piece>, AllocError>
    ensures { IfOk result (λ found. found ≡ piece_in set.now.attributes tree.now) }
{
    match &tree.body {
        Body::Prim(_) => Ok(None),
        Body::Cons(inside) => match piece_kind(tree.tag) {
            Some(kind) => piece_under(alloc, set, kind, inside),
            None => Ok(None),
        },
    }
}

/// The pieces that trees give, or none where one of them is no piece.
fn read_pieces(alloc: Global, set: &Set, trees: &Trees) -> Result<Option<Pieces>, AllocError>
    ensures { IfOk result (λ found. found ≡ pieces_in set.now.attributes trees.now) }
{
    let mut items = Vec::new(alloc);
    for tree in trees.items.as_slice() {
        match read_piece(alloc, set, tree)? {
            None => return Ok(None),
            Some(piece) => items.push(piece)?,
        }
    }
    Ok(Some(Pieces { items }))
}

/// The value of a piece under its kind.
fn picked(alloc: Global, kind: u8, value: &Value) -> Result<Value, AllocError>
    ensures { IfOk result (λ found. found ≡ Pick kind value.now) }
{
    let value = Box::new(alloc, value.copy(alloc)?)?;
    Ok(Value {
        form: ValueForm::Pick(u32::from(kind), value),
    })
}

/// The value of pieces, or none where the value of one of them is none.
pub fn pieces_value(alloc: Global, pieces: &[Piece]) -> Result<Option<Value>, AllocError>
    ensures { IfOk result (λ value. value ≡ asserted_pieces pieces.now) }
{
    let mut items = Vec::new(alloc);
    for piece in pieces {
        match &piece.given.value {
            None => return Ok(None),
            Some(value) => items.push(picked(alloc, piece.kind, value)?)?,
        }
    }
    Ok(Some(Value {
        form: ValueForm::Many(Values { items }),
    }))
}

/// The substrings item that trees give, or none.
fn read_substrings(alloc: Global, set: &Set, trees: &Trees) -> Result<Option<Item>, AllocError>
    ensures { IfOk result (λ found. found ≡ option_map substrings_of (pieces_in set.now.attributes trees.now)) }
{
    match read_pieces(alloc, set, trees)? {
        Some(pieces) => {
            let value = pieces_value(alloc, pieces.items.as_slice())?;
            Ok(Some(Item::Substrings(pieces, value)))
        }
        None => Ok(None),
    }
}

/// The one identifier that trees give, or none.
fn read_one_id(alloc: Global, trees: &Trees) -> Result<Option<IdRef>, AllocError>
    ensures { IfOk result (λ found. found ≡ one_id_in trees.now) }
{
    match trees.items.as_slice() {
        [] => Ok(None),
        [id] => read_id(alloc, GLOBAL_FORM, LOCAL_FORM, id),
        [_, _, ..] => Ok(None),
    }
}

/// The item `present` that trees give, or none.
fn read_present(alloc: Global, trees: &Trees) -> Result<Option<Item>, AllocError>
    ensures { IfOk result (λ found. found ≡ option_map items.Present (one_id_in trees.now)) }
{
    match read_one_id(alloc, trees)? {
        Some(id) => Ok(Some(Item::Present(id))),
        None => Ok(None),
    }
}

/// The item of this tag with an assertion, or none.
fn asserted(tag: Tag, given: Given) -> Option<Item>
    ensures { result ≡ assertion_by tag given }
{
    if is_context(EQUALITY, tag) {
        Some(Item::Equality(given))
    } else if is_context(GREATER_OR_EQUAL, tag) {
        Some(Item::GreaterOrEqual(given))
    } else if is_context(LESS_OR_EQUAL, tag) {
        Some(Item::LessOrEqual(given))
    } else if is_context(SUBSET_OF, tag) {
        Some(Item::SubsetOf(given))
    } else if is_context(SUPERSET_OF, tag) {
        Some(Item::SupersetOf(given))
    } else if is_context(MEETS, tag) {
        Some(Item::Meets(given))
    } else {
        None
    }
}

/// The item of this tag with the assertion that trees give, or none.
fn read_assertion(
    alloc: Global,
    set: &Set,
    tag: Tag,
    trees: &Trees,
) -> Result<Option<Item>, AllocError>
    ensures { IfOk result (λ found. found
        ≡ option_and_then (assertion_by tag) (given_in set.now.attributes trees.now)) }
{
    match read_components(alloc, set, trees)? {
        Some(given) => Ok(asserted(tag, given)),
        None => Ok(None),
    }
}

/// The item that a tree gives, or none.
fn read_item(alloc: Global, set: &Set, tree: &Tree) -> Result<Option<Item>, AllocError>
    ensures { IfOk result (λ found. found ≡ item_in set.now.attributes tree.now) }
{
    match &tree.body {
        Body::Prim(_) => Ok(None),
        Body::Cons(inside) => {
            if is_context(SUBSTRINGS, tree.tag) {
                read_substrings(alloc, set, inside)
            } else if is_context(PRESENT, tree.tag) {
                read_present(alloc, inside)
            } else {
                read_assertion(alloc, set, tree.tag, inside)
            }
        }
    }
}

/// The one item that trees give, or none.
pub fn read_one_item(alloc: Global, set: &Set, trees: &Trees) -> Result<Option<Item>, AllocError>
    ensures { IfOk result (λ found. found ≡ one_item_in set.now.attributes trees.now) }
{
    match trees.items.as_slice() {
        [] => Ok(None),
        [item] => read_item(alloc, set, item),
        [_, _, ..] => Ok(None),
    }
}
