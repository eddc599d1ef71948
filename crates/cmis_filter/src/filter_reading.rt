//! Filters of requests: X.711, section 7.5, type CMISFilter.

ghost use Rattle.std.specs.Prelude.{◌≡◌, Err, IfOk, None, Some, false};
ghost use Rattle.std.specs.Option.{option_map};
ghost use Rattle.term_values.specs.Der.{written};
ghost use Rattle.term_values.specs.FilterTrees.{is_filter};
ghost use Rattle.term_model.specs.FilterReading.{asked_in, filter_in, filters_in, one_filter_in, valid_of};
ghost use Rattle.term_model.specs.FilterTrees.FilterTree.{OfItem, And, Or, Not};
ghost use Rattle.cmis_filter.specs.declared.filter_refusal.FilterRefusal.TheVariants.{Mistyped};

use crate::filter_limits::{ITEM, is_large};
use crate::filter_refusal::FilterRefusal;
use crate::given_reading::{is_context, kept};
use crate::item_reading::read_one_item;
use crate::validity::is_valid;
use ber_values::filter_reading::is_filter;
use std::alloc::{AllocError, Global};
use std::boxed::Box;
use term_model::{Asked, Filter, FilterForm, Filters, Item, Set};
use term_values::{Body, Tree, Trees};

/// The tags of the other filters.
const AND: u32 = 9;

const OR: u32 = 10;

const NOT: u32 = 11;

/// The filter of an item.
fn of_item(item: Option<Item>) -> Option<Filter>
    ensures { result ≡ option_map OfItem item }
{
    match item {
        Some(item) => Some(Filter {
            form: FilterForm::Item(item),
        }),
        None => None,
    }
}

/// The filter that all of these are true.
fn all_of(filters: Option<Filters>) -> Option<Filter>
    ensures { result ≡ option_map And filters }
{
    match filters {
        Some(filters) => Some(Filter {
            form: FilterForm::And(filters),
        }),
        None => None,
    }
}

/// The filter that some of these is true.
fn some_of(filters: Option<Filters>) -> Option<Filter>
    ensures { result ≡ option_map Or filters }
{
    match filters {
        Some(filters) => Some(Filter {
            form: FilterForm::Or(filters),
        }),
        None => None,
    }
}

/// The filter that this is false.
fn negation(alloc: Global, filter: Option<Filter>) -> Result<Option<Filter>, AllocError>
    ensures { IfOk result (λ found. found ≡ option_map Not filter) }
{
    match filter {
        Some(filter) => Ok(Some(Filter {
            form: FilterForm::Not(Box::new(alloc, filter)?),
        })),
        None => Ok(None),
    }
}

/// The filter that a tree gives, or none.
#[cycle(reading)]
fn filter_of(alloc: Global, set: &Set, tree: &Tree) -> Result<Option<Filter>, AllocError>
    ensures { IfOk result (λ found. found ≡ filter_in set.now.attributes tree.now) }
{
    match &tree.body {
        Body::Prim(_) => Ok(None),
        Body::Cons(inside) => {
            if is_context(ITEM, tree.tag) {
                Ok(of_item(read_one_item(alloc, set, inside)?))
            } else if is_context(AND, tree.tag) {
                Ok(all_of(filters_of(alloc, set, inside)?))
            } else if is_context(OR, tree.tag) {
                Ok(some_of(filters_of(alloc, set, inside)?))
            } else if is_context(NOT, tree.tag) {
                negation(alloc, one_filter_of(alloc, set, inside)?)
            } else {
                Ok(None)
            }
        }
    }
}

/// The filters that trees give, or none where one of them gives none.
#[cycle(reading)]
fn filters_of(alloc: Global, set: &Set, trees: &Trees) -> Result<Option<Filters>, AllocError>
    ensures { IfOk result (λ found. found ≡ filters_in set.now.attributes trees.now) }
{
    let mut items = Vec::new(alloc);
    for tree in trees.items.as_slice() {
        match filter_of(alloc, set, tree)? {
            None => return Ok(None),
            Some(filter) => items.push(filter)?,
        }
    }
    Ok(Some(Filters { items }))
}

/// The one filter that trees give, or none.
#[cycle(reading)]
fn one_filter_of(alloc: Global, set: &Set, trees: &Trees) -> Result<Option<Filter>, AllocError>
    ensures { IfOk result (λ found. found ≡ one_filter_in set.now.attributes trees.now) }
{
    match trees.items.as_slice() {
        [] => Ok(None),
        [only] => filter_of(alloc, set, only),
        [_, _, ..] => Ok(None),
    }
}

/// A filter within the limits as it is asked: where an item is invalid, as it is given back.
fn asked(alloc: Global, set: &Set, filter: Filter, tree: &Tree) -> Result<Asked, AllocError>
    ensures { IfOk result (λ asked. asked ≡ valid_of set.now.attributes (written tree.now) filter) }
{
    if is_valid(set, &filter) {
        return Ok(Asked::Good(filter));
    }
    drop(filter);
    Ok(Asked::Bad(kept(alloc, tree)?))
}

/// The filter that a tree gives as it is asked, or none.
#[tactic(auto, using(crate::proofs::AskedLaws::none_found))]
fn asked_by(alloc: Global, set: &Set, tree: &Tree) -> Result<Option<Asked>, AllocError>
    ensures { IfOk result (λ found. found ≡ asked_in set.now.attributes tree.now) }
{
    if is_large(tree) {
        if is_filter(alloc, tree)? {
            Ok(Some(Asked::Large))
        } else {
            Ok(None)
        }
    } else {
        match filter_of(alloc, set, tree)? {
            Some(filter) => Ok(Some(asked(alloc, set, filter, tree)?)),
            None => Ok(None),
        }
    }
}

/// Reads the filter of a request under the attributes of a schema: X.711, type CMISFilter. It is `Large` where it has
/// more than 16 levels or more than 256 items, else `Bad` with its octets where an item is invalid, else `Good`; the
/// filters of `and` and `or` stand as they came. `Mistyped` where the tree is no CMISFilter.
#[tactic(auto, using(crate::proofs::AskedLaws::no_form))]
pub fn read_filter(alloc: Global, set: &Set, tree: &Tree) -> Result<Asked, FilterRefusal>
    // the filter that the tree gives
    ensures asked { IfOk result (λ asked. asked_in set.now.attributes tree.now ≡ Some asked) }

    // refused as mistyped only where it gives none, which is where it is no CMISFilter
    ensures mistyped { result ≡ Err Mistyped → asked_in set.now.attributes tree.now ≡ None }
    ensures form { result ≡ Err Mistyped → is_filter tree.now ≡ false }
{
    match asked_by(alloc, set, tree) {
        Ok(Some(asked)) => Ok(asked),
        Ok(None) => Err(FilterRefusal::Mistyped),
        Err(_) => Err(FilterRefusal::Memory),
    }
}
