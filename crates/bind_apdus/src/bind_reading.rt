//! Reads a manager's BIND: docs/PROFILE.md, section 4.

ghost use Rattle.std.specs.Prelude.{◌≡◌, IfOk};
ghost use Rattle.std.specs.Option.{option_copied};
ghost use Rattle.term_values.specs.BerReading.{tree_in};
ghost use Rattle.term_values.specs.Oid.{oid_in};
ghost use Rattle.term_values.specs.Tree.{listed};
ghost use Rattle.agent_model.specs.Bind.{title_in, title_of};
ghost use Rattle.term_model.specs.Parts.{oid_under, one, one_under};

use ber_tree::tree_reading::{read_front_tree, read_oid_contents};
use rose_frames::parts::{contents_of, inside_of};
use std::alloc::{AllocError, Global};
use term_values::{Oid, Tag, Tree};

/// The value that stands alone in a list.
fn alone(trees: &[Tree]) -> Option<&Tree>
    ensures { option_copied result ≡ one (listed trees.now) }
{
    if trees.len() == 1 {
        Some(&trees[0])
    } else {
        None
    }
}

/// The one value inside a constructed value of this tag.
fn one_of(tree: &Tree, tag: Tag) -> Option<&Tree>
    ensures { option_copied result ≡ one_under tag tree.now }
{
    alone(inside_of(tree, tag)?)
}

/// The tree that all of the octets spell.
fn whole_tree(alloc: Global, bytes: &[u8]) -> Result<Option<Tree>, AllocError>
    ensures { IfOk result (λ tree. tree ≡ tree_in bytes.now) }
{
    match read_front_tree(alloc, bytes)? {
        None => Ok(None),
        Some((tree, size)) => {
            if size == bytes.len() {
                Ok(Some(tree))
            } else {
                Ok(None)
            }
        }
    }
}

/// The identifier that contents octets denote.
fn read_oid(alloc: Global, contents: &[u8]) -> Result<Option<Oid>, AllocError>
    ensures { IfOk result (λ oid. oid ≡ oid_in contents.now) }
{
    match read_oid_contents(alloc, contents)? {
        None => Ok(None),
        Some(oid) => {
            // What the call says of the arcs is what the definition tests.
            let _arcs = oid.arcs();
            Ok(Some(oid))
        }
    }
}

/// An identifier under this tag.
fn oid_of(alloc: Global, tree: &Tree, tag: Tag) -> Result<Option<Oid>, AllocError>
    ensures { IfOk result (λ oid. oid ≡ oid_under tag tree.now) }
{
    match contents_of(tree, tag) {
        None => Ok(None),
        Some(contents) => read_oid(alloc, contents),
    }
}

/// The title in a BIND.
fn title_of(alloc: Global, bind: &Tree) -> Result<Option<Oid>, AllocError>
    ensures { IfOk result (λ title. title ≡ title_of bind.now) }
{
    match one_of(bind, Tag::SEQUENCE) {
        None => Ok(None),
        Some(title) => oid_of(alloc, title, Tag::OBJECT_IDENTIFIER),
    }
}

/// The title in the octets of a BIND; none where they are no BIND.
pub fn title_in(alloc: Global, bind: &[u8]) -> Result<Option<Oid>, AllocError>
    ensures { IfOk result (λ title. title ≡ title_in bind.now) }
{
    match whole_tree(alloc, bind)? {
        None => Ok(None),
        Some(tree) => title_of(alloc, &tree),
    }
}
