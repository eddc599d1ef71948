//! Trees of tagged values: the structure that X.690 gives a value, apart from the octets that spell it.

ghost use Rattle.std.specs.Prelude.{◌≡◌};
ghost use Rattle.term_values.specs.Tree.{TreeValue, listed};
ghost use Rattle.term_values.specs.Tree.TreeValue.{Primitive, Constructed};

use crate::bytes::Bytes;
use crate::tag::Tag;
use std::marker::Model;

/// A tagged value: X.690, section 8.1.
#[cycle(tree)]
#[derive(Drop)]
pub struct Tree {
    pub tag: Tag,
    pub body: Body,
}

/// What a tagged value holds.
#[cycle(tree)]
#[derive(Drop)]
pub enum Body {
    /// The contents octets of a primitive value.
    Prim(Bytes),
    /// The values inside a constructed value, in their order.
    Cons(Trees),
}

/// Tagged values in their order.
#[cycle(tree)]
#[derive(Drop)]
pub struct Trees {
    pub items: Vec<Tree>,
}

impl Model for Tree {
    ghost use Rattle.term_values.specs.Tree.{TreeValue, tree_code, nodes};

    ghost Value = { TreeValue };

    ghost coded = { tree_code };

    ghost use Rattle.term_values.specs.TreeView.{tree_of};

    ghost view = { λ tree. tree_of tree.tag tree.body };

    ghost size = { nodes };

    ghost use Rattle.term_values.specs.TreeDepth.{depth_below_nodes};

    ghost size_decreases = { λ tree h. depth_below_nodes tree.tag tree.body };
}

impl Model for Trees {
    ghost use Rattle.term_values.specs.Tree.{TreeValues, trees_code, nodes_all, listed};
    ghost use Rattle.std.proofs.Common.{arith};
    ghost use Rattle.term_values.specs.Tree.{most_below_nodes};

    ghost Value = { TreeValues };

    ghost coded = { trees_code };

    ghost view = { λ trees. listed trees.items.items };

    ghost size = { nodes_all };

    ghost size_decreases = { λ trees h. Prim.omega (arith, most_below_nodes trees.items.items) };
}

impl Tree {
    /// A primitive value.
    pub fn primitive(tag: Tag, contents: Bytes) -> Tree
        ensures { result ≡ Primitive tag contents }
    {
        Tree {
            tag,
            body: Body::Prim(contents),
        }
    }

    /// A constructed value.
    pub fn constructed(tag: Tag, inside: Trees) -> Tree
        ensures { result ≡ Constructed tag inside }
    {
        Tree {
            tag,
            body: Body::Cons(inside),
        }
    }
}
