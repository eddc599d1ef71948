//! The parts of a tree under a tag, and values in a row: X.690, section 8.1.

ghost use Rattle.std.specs.Prelude.{◌≡◌};
ghost use Rattle.std.specs.Option.{option_map, option_copied};
ghost use Rattle.term_values.specs.LeafReading.{no_trees};
ghost use Rattle.term_values.specs.Tree.{listed};
ghost use Rattle.term_model.specs.ApduReading.{at_most_one, first_by, id_under, linked_first};
ghost use Rattle.term_model.specs.Parts.{contents_under, inside_under, integer_under, two, two_under};

use ber_tree::tree_reading::read_integer_contents;
use term_values::tag::CONTEXT;
use term_values::{Body, Tag, Tree};

/// The tag of a linked id in an Invoke.
pub const LINKED_ID: Tag = Tag {
    class: CONTEXT,
    number: 0,
};

/// The values inside a constructed value of this tag.
pub fn inside_of(tree: &Tree, tag: Tag) -> Option<&[Tree]>
    ensures { option_map listed (option_copied result) ≡ inside_under tag tree.now }
{
    match &tree.body {
        Body::Cons(inside) if tree.tag == tag => Some(inside.items.as_slice()),
        _ => None,
    }
}

/// The contents octets of a primitive value of this tag.
pub fn contents_of(tree: &Tree, tag: Tag) -> Option<&[u8]>
    ensures { option_copied result ≡ contents_under tag tree.now }
{
    match &tree.body {
        Body::Prim(contents) if tree.tag == tag => Some(contents.as_slice()),
        _ => None,
    }
}

/// The values of a list of two.
pub fn pair(trees: &[Tree]) -> Option<(&Tree, &Tree)>
    ensures { option_map (λ parts. (parts.0.now, parts.1.now)) result ≡ two (listed trees.now) }
{
    if trees.len() == 2 {
        Some((&trees[0], &trees[1]))
    } else {
        None
    }
}

/// The two values inside a constructed value of this tag.
pub fn two_of(tree: &Tree, tag: Tag) -> Option<(&Tree, &Tree)>
    ensures { option_map (λ parts. (parts.0.now, parts.1.now)) result ≡ two_under tag tree.now }
{
    pair(inside_of(tree, tag)?)
}

/// An INTEGER of 64 bits under this tag.
pub fn integer_of(tree: &Tree, tag: Tag) -> Option<i64>
    ensures { result ≡ integer_under tag tree.now }
{
    read_integer_contents(contents_of(tree, tag)?)
}

/// An INTEGER of 32 bits under this tag.
pub fn id_of(tree: &Tree, tag: Tag) -> Option<i32>
    ensures { result ≡ id_under tag tree.now }
{
    i32::try_from(integer_of(tree, tag)?).ok()
}

/// An invoke id that comes first, and what follows it.
pub fn id_first(trees: &[Tree]) -> Option<(i32, &[Tree])>
    ensures { option_map (λ f. (f.0, listed f.1.now)) result ≡ first_by (id_under Tag.INTEGER) (listed trees.now) }
{
    match trees.split_first() {
        None => None,
        Some((first, rest)) => Some((id_of(first, Tag::INTEGER)?, rest)),
    }
}

/// A number that comes first, and what follows it.
pub fn number_first(trees: &[Tree]) -> Option<(i64, &[Tree])>
    ensures { option_map (λ f. (f.0, listed f.1.now)) result
        ≡ first_by (integer_under Tag.INTEGER) (listed trees.now) }
{
    match trees.split_first() {
        None => None,
        Some((first, rest)) => Some((integer_of(first, Tag::INTEGER)?, rest)),
    }
}

/// A linked id, where one comes first, and what follows it.
pub fn linked_first(trees: &[Tree]) -> Option<(Option<i32>, &[Tree])>
    ensures { option_map (λ f. (f.0, listed f.1.now)) result ≡ linked_first (listed trees.now) }
{
    match trees.split_first() {
        None => Some((None, trees)),
        Some((first, rest)) => {
            if first.tag == LINKED_ID {
                Some((Some(id_of(first, LINKED_ID)?), rest))
            } else {
                Some((None, trees))
            }
        }
    }
}

/// No value is left.
fn is_end(trees: &[Tree]) -> bool
    ensures { result ≡ no_trees (listed trees.now) }
{
    match trees.split_first() {
        None => true,
        Some(_) => false,
    }
}

/// At most one value.
pub fn at_most_one(trees: &[Tree]) -> Option<Option<&Tree>>
    ensures { option_map option_copied result ≡ at_most_one (listed trees.now) }
{
    match trees.split_first() {
        None => Some(None),
        Some((first, rest)) => {
            if is_end(rest) {
                Some(Some(first))
            } else {
                None
            }
        }
    }
}
