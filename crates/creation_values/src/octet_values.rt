//! The value that octets have in a syntax: X.690, section 8.

ghost use Rattle.std.specs.Prelude.{◌≡◌, IfOk};
ghost use Rattle.term_model.specs.CreateValues.{value_of_octets};
ghost use Rattle.term_values.specs.Decoding.{value_in};
ghost use Rattle.term_values.specs.KeptTest.{tree_of};

use ber_tree::tree_reading::read_deep_tree;
use ber_values::{DecodeRefusal, decode};
use std::alloc::{AllocError, Global};
use term_values::{Syntax, Tree, Value};

/// The tree that all of the octets spell, of any depth: no value has as many others round it as there are octets. The
/// recursion goes down what the octets nest. Those of a name in a request were read with at most 32 levels; those of a
/// name in a document nest as its value does.
fn whole_tree(alloc: Global, bytes: &[u8]) -> Result<Option<Tree>, AllocError>
    ensures { IfOk result (λ tree. tree ≡ tree_of bytes.now) }
{
    match read_deep_tree(alloc, bytes, bytes.len())? {
        None => Ok(None),
        Some((tree, size)) => {
            if size == bytes.len() {
                Ok(Some(tree))
            } else {
                Ok(None)
            }
        }
    }
}

/// The value that a tree denotes.
fn tree_value(alloc: Global, syntax: &Syntax, tree: &Tree) -> Result<Option<Value>, AllocError>
    ensures { IfOk result (λ value. value ≡ value_in syntax.now tree.now) }
{
    match decode(alloc, syntax, tree) {
        Ok(value) => Ok(Some(value)),
        Err(DecodeRefusal::Misfit) => Ok(None),
        Err(DecodeRefusal::Memory) => Err(AllocError),
    }
}

/// The value that octets have in a syntax, where they are one of it.
pub fn value_of_octets(
    alloc: Global,
    syntax: &Syntax,
    octets: &[u8],
) -> Result<Option<Value>, AllocError>
    ensures { IfOk result (λ value. value ≡ value_of_octets syntax.now octets.now) }
{
    match whole_tree(alloc, octets)? {
        Some(tree) => tree_value(alloc, syntax, &tree),
        None => Ok(None),
    }
}
