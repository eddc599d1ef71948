//! Copies of trees.

ghost use Rattle.std.specs.Prelude.{◌≡◌, IfOk};
ghost use Rattle.std.specs.Option.{option_copied};

use std::alloc::{AllocError, Global};
use term_values::{Body, Tree, Trees};

/// A copy of a tree.
#[cycle(copying_trees)]
pub fn copy_tree(alloc: Global, tree: &Tree) -> Result<Tree, AllocError>
    ensures { IfOk result (λ copy. copy ≡ tree.now) }
{
    match &tree.body {
        Body::Prim(contents) => Ok(Tree::primitive(tree.tag, contents.copy(alloc)?)),
        Body::Cons(inside) => Ok(Tree::constructed(tree.tag, copy_trees(alloc, inside)?)),
    }
}

#[cycle(copying_trees)]
fn copy_trees(alloc: Global, trees: &Trees) -> Result<Trees, AllocError>
    ensures { IfOk result (λ copy. copy ≡ trees.now) }
{
    let mut items = Vec::new(alloc);
    for tree in trees.items.as_slice() {
        items.push(copy_tree(alloc, tree)?)?;
    }
    Ok(Trees { items })
}

/// A copy of a tree, where there is one.
pub fn copy_any(alloc: Global, tree: Option<&Tree>) -> Result<Option<Tree>, AllocError>
    ensures { IfOk result (λ copy. copy ≡ option_copied tree.entry) }
{
    match tree {
        None => Ok(None),
        Some(tree) => Ok(Some(copy_tree(alloc, tree)?)),
    }
}
