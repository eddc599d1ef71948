//! Values of ANY and of CMISFilter: X.690, sections 8.1 and 10.1; docs/PROFILE.md, section 3.

ghost use Rattle.std.specs.Prelude.{◌≡◌, ◌&&◌, IfOk, IfSome};
ghost use Rattle.term_values.specs.Der.{written};
ghost use Rattle.term_values.specs.SameValue.{same_octets};
ghost use Rattle.term_values.specs.KeptTest.{tree_of, is_short, is_writable, tree_contents, any_fits, filter_fits};

use ber_tree::tree_reading::read_deep_tree;
use ber_tree::tree_writing::write_tree;
use ber_tree::value_writing::write_value;
use ber_values::filter_reading::is_filter;
use std::alloc::{AllocError, Global};
use term_values::{Body, Bytes, Tree, Value, ValueForm};

/// The greatest length that is read: X.690, section 8.1.3, with lengths of 32 bits.
const MOST_LENGTH: usize = 0xFFFF_FFFF;

/// The one value that the octets are, of any depth: no value has as many others round it as there are octets. The
/// recursion goes down what the octets nest.
fn tree_of(alloc: Global, octets: &[u8]) -> Result<Option<Tree>, AllocError>
    ensures read { IfOk result (λ found. tree_of octets.now ≡ found) }
    ensures writable { IfOk result (λ found. IfSome found (λ tree. is_writable tree ≡ is_short tree)) }
{
    match read_deep_tree(alloc, octets, octets.len())? {
        None => Ok(None),
        Some((tree, size)) => {
            if size == octets.len() {
                Ok(Some(tree))
            } else {
                Ok(None)
            }
        }
    }
}

/// The contents octets of a tree in its one form.
fn contents_of(alloc: Global, tree: &Tree) -> Result<Vec<u8>, AllocError>
    ensures { IfOk result (λ contents. contents.items ≡ tree_contents tree.now) }
{
    let mut contents = Vec::new(alloc);
    match &tree.body {
        Body::Prim(octets) => contents.extend_from_slice(octets.as_slice())?,
        Body::Cons(inside) => {
            for one in inside.items.as_slice() {
                write_tree(one, &mut contents)?;
            }
        }
    }
    Ok(contents)
}

/// The octets are the one form of the tree, whose length has 32 bits.
fn is_written(alloc: Global, octets: &Bytes, tree: &Tree) -> Result<bool, AllocError>
    ensures { IfOk result (λ found. found ≡ (is_short tree.now && same_octets octets.now (written tree.now))) }
{
    let contents = contents_of(alloc, tree)?;
    if contents.len() > MOST_LENGTH {
        return Ok(false);
    }
    let constructed = matches!(tree.body, Body::Cons(_));
    let mut items = Vec::new(alloc);
    write_value(constructed, tree.tag, contents.as_slice(), &mut items)?;
    Ok(*octets == Bytes { items })
}

/// ANY: the octets are one value, in the form in which it is kept.
pub(crate) fn any_fits(alloc: Global, value: &Value) -> Result<bool, AllocError>
    ensures { IfOk result (λ found. found ≡ any_fits value.now) }
{
    match &value.form {
        ValueForm::Raw(octets) => match tree_of(alloc, octets.as_slice())? {
            None => Ok(false),
            Some(tree) => is_written(alloc, octets, &tree),
        },
        _ => Ok(false),
    }
}

/// CMISFilter: the octets are one value of the form of a filter.
pub(crate) fn filter_fits(alloc: Global, value: &Value) -> Result<bool, AllocError>
    ensures { IfOk result (λ found. found ≡ filter_fits value.now) }
{
    match &value.form {
        ValueForm::Raw(octets) => match tree_of(alloc, octets.as_slice())? {
            None => Ok(false),
            Some(tree) => {
                if is_filter(alloc, &tree)? {
                    is_written(alloc, octets, &tree)
                } else {
                    Ok(false)
                }
            }
        },
        _ => Ok(false),
    }
}
