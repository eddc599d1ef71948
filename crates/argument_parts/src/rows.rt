//! Components in a row, of which some may be left out: X.690, section 8.9.

ghost use Rattle.std.specs.Prelude.{◌≡◌};
ghost use Rattle.std.specs.Option.{option_map, option_copied};
ghost use Rattle.term_values.specs.FilterTrees.{is_context};
ghost use Rattle.term_values.specs.Tree.{listed};
ghost use Rattle.term_model.specs.Parts.{one_under};
ghost use Rattle.term_model.specs.ArgumentRows.{at_end, at_front, begins_filter, begins_place, held_under, inside_last};

use crate::parts::{alone, inside_of, is_end};
use ber_values::tagging::is_same_tag;
use term_values::{Tag, Tree};

/// The tag is the context-specific one with this number.
pub fn is_context(number: u32, tag: Tag) -> bool
    ensures { result ≡ is_context number tag }
{
    is_same_tag(Tag::context(number), tag)
}

/// A component with this context tag, which may be left out, and what follows.
pub fn at_front(number: u32, trees: &[Tree]) -> (Option<&Tree>, &[Tree])
    ensures { (option_copied result.0, listed result.1.now) ≡ at_front (is_context number) (listed trees.now) }
{
    match trees.split_first() {
        None => (None, trees),
        Some((first, rest)) => {
            if is_context(number, first.tag) {
                (Some(first), rest)
            } else {
                (None, trees)
            }
        }
    }
}

fn begins_filter(tag: Tag) -> bool
    ensures { result ≡ begins_filter tag }
{
    is_context(8, tag) || is_context(9, tag) || is_context(10, tag) || is_context(11, tag)
}

/// A filter, which may be left out, and what follows.
pub fn filter_at_front(trees: &[Tree]) -> (Option<&Tree>, &[Tree])
    ensures { (option_copied result.0, listed result.1.now) ≡ at_front begins_filter (listed trees.now) }
{
    match trees.split_first() {
        None => (None, trees),
        Some((first, rest)) => {
            if begins_filter(first.tag) {
                (Some(first), rest)
            } else {
                (None, trees)
            }
        }
    }
}

fn begins_place(tag: Tag) -> bool
    ensures { result ≡ begins_place tag }
{
    is_context(2, tag) || is_context(3, tag) || is_context(4, tag) || is_context(8, tag)
}

/// The place of an m-Create, which may be left out, and what follows.
pub fn place_at_front(trees: &[Tree]) -> (Option<&Tree>, &[Tree])
    ensures { (option_copied result.0, listed result.1.now) ≡ at_front begins_place (listed trees.now) }
{
    match trees.split_first() {
        None => (None, trees),
        Some((first, rest)) => {
            if begins_place(first.tag) {
                (Some(first), rest)
            } else {
                (None, trees)
            }
        }
    }
}

/// A component with this context tag, which may be left out, where nothing follows.
pub fn at_end(number: u32, trees: &[Tree]) -> Option<Option<&Tree>>
    ensures { option_map option_copied result ≡ at_end number (listed trees.now) }
{
    let (found, rest) = at_front(number, trees);
    if is_end(rest) { Some(found) } else { None }
}

/// The values in the one tree of a row, which has the context tag with this number.
pub fn inside_last(number: u32, trees: &[Tree]) -> Option<&[Tree]>
    ensures { option_map listed (option_copied result) ≡ inside_last number (listed trees.now) }
{
    inside_of(alone(trees)?, Tag::context(number))
}

/// The one value under an explicit context tag.
pub fn one_under(number: u32, tree: &Tree) -> Option<&Tree>
    ensures { option_copied result ≡ one_under (record { class = 2; number = number }) tree.now }
{
    alone(inside_of(tree, Tag::context(number))?)
}

/// The one value under the explicit tag of a component that may be left out.
pub fn held_under<'a>(number: u32, tree: Option<&'a Tree>) -> Option<Option<&'a Tree>>
    ensures { option_map option_copied result ≡ held_under number (option_copied tree.entry) }
{
    match tree {
        None => Some(None),
        Some(tree) => Some(Some(one_under(number, tree)?)),
    }
}
