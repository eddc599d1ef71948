//! The parts of a tree under a tag: X.690, section 8.1.

ghost use Rattle.std.specs.Prelude.{◌≡◌};
ghost use Rattle.std.specs.Option.{option_map, option_copied};
ghost use Rattle.term_values.specs.LeafReading.{no_trees};
ghost use Rattle.term_values.specs.Tree.{listed};
ghost use Rattle.term_model.specs.ApduReading.{at_most_one};
ghost use Rattle.term_model.specs.Parts.{contents_under, inside_under, integer_under, one, two, two_under};

use ber_tree::tree_reading::read_integer_contents;
use term_values::{Body, Tag, Tree};

/// The values inside a constructed value of this tag.
pub fn inside_of(tree: &Tree, tag: Tag) -> Option<&[Tree]>
    ensures { option_map listed (option_copied result) ≡ inside_under tag tree.now }
{
    match &tree.body {
        Body::Cons(inside) if tree.tag == tag => Some(inside.items.as_slice()),
        _ => None,
    }
}

/// The contents octets of a primitive value of this tag.
pub fn contents_of(tree: &Tree, tag: Tag) -> Option<&[u8]>
    ensures { option_copied result ≡ contents_under tag tree.now }
{
    match &tree.body {
        Body::Prim(contents) if tree.tag == tag => Some(contents.as_slice()),
        _ => None,
    }
}

/// An INTEGER of 64 bits under this tag.
pub fn integer_of(tree: &Tree, tag: Tag) -> Option<i64>
    ensures { result ≡ integer_under tag tree.now }
{
    read_integer_contents(contents_of(tree, tag)?)
}

/// No value is left.
pub fn is_end(trees: &[Tree]) -> bool
    ensures { result ≡ no_trees (listed trees.now) }
{
    match trees.split_first() {
        None => true,
        Some(_) => false,
    }
}

/// At most one value.
pub fn at_most_one(trees: &[Tree]) -> Option<Option<&Tree>>
    ensures { option_map option_copied result ≡ at_most_one (listed trees.now) }
{
    match trees.split_first() {
        None => Some(None),
        Some((first, rest)) => {
            if is_end(rest) {
                Some(Some(first))
            } else {
                None
            }
        }
    }
}

/// The value that stands alone in a row.
pub fn alone(trees: &[Tree]) -> Option<&Tree>
    ensures { option_copied result ≡ one (listed trees.now) }
{
    if trees.len() == 1 {
        Some(&trees[0])
    } else {
        None
    }
}

/// The values of a row of two.
pub fn pair(trees: &[Tree]) -> Option<(&Tree, &Tree)>
    ensures { option_map (λ parts. (parts.0.now, parts.1.now)) result ≡ two (listed trees.now) }
{
    if trees.len() == 2 {
        Some((&trees[0], &trees[1]))
    } else {
        None
    }
}

/// The two values inside a constructed value of this tag.
pub fn two_of(tree: &Tree, tag: Tag) -> Option<(&Tree, &Tree)>
    ensures { option_map (λ parts. (parts.0.now, parts.1.now)) result ≡ two_under tag tree.now }
{
    pair(inside_of(tree, tag)?)
}
