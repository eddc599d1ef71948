//! How deep filters of requests may be and how many items they may have: docs/PROFILE.md, section 13.

ghost use Rattle.std.specs.Prelude.{◌≡◌};
ghost use Rattle.cmis_filter.specs.TreeLimits.{all_items_left, is_deeper, is_large, is_some_deeper, items_left};

use crate::given_reading::is_context;
use term_values::{Body, Tree, Trees};

/// How many filters may stand inside one another.
const MOST_LEVELS: usize = 16;

/// How many items a filter may have.
const MOST_ITEMS: usize = 256;

/// The tag of a filter that is an item.
pub const ITEM: u32 = 8;

/// Whether the filter that the tree gives has more levels.
#[cycle(levels)]
fn is_deeper(most: usize, tree: &Tree) -> bool
    ensures { result ≡ is_deeper most tree.now }
{
    match &tree.body {
        Body::Prim(_) => most == 0,
        Body::Cons(inside) => {
            most == 0 || (!is_context(ITEM, tree.tag) && is_some_deeper(most - 1, inside))
        }
    }
}

/// Whether one of the filters that trees give has more levels.
#[cycle(levels)]
fn is_some_deeper(most: usize, trees: &Trees) -> bool
    ensures { result ≡ is_some_deeper most trees.now }
{
    for tree in trees.items.as_slice() {
        if is_deeper(most, tree) {
            return true;
        }
    }
    false
}

/// How many items there may be beside those of the filter that the tree gives, or none where it has more.
#[cycle(items)]
fn items_left(most: usize, tree: &Tree) -> Option<usize>
    ensures { result ≡ items_left most tree.now }
{
    match &tree.body {
        Body::Prim(_) => Some(most),
        Body::Cons(inside) => {
            if !is_context(ITEM, tree.tag) {
                all_items_left(most, inside)
            } else if most == 0 {
                None
            } else {
                Some(most - 1)
            }
        }
    }
}

/// How many items there may be beside those of the filters that trees give, or none where they have more.
#[cycle(items)]
fn all_items_left(most: usize, trees: &Trees) -> Option<usize>
    ensures { result ≡ all_items_left most trees.now }
{
    let mut left = most;
    for tree in trees.items.as_slice() {
        match items_left(left, tree) {
            Some(fewer) => left = fewer,
            None => return None,
        }
    }
    Some(left)
}

/// Whether the filter that the tree gives passes the limits. Of a tree that gives none the answer says nothing.
pub fn is_large(tree: &Tree) -> bool
    ensures { result ≡ is_large tree.now }
{
    is_deeper(MOST_LEVELS, tree) || items_left(MOST_ITEMS, tree).is_none()
}
