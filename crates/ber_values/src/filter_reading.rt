//! Which trees are a CMISFilter: X.711, section 7.5.

ghost use Rattle.std.specs.Prelude.{◌≡◌, ◌&&◌, ◌||◌, IfOk, is_some};
ghost use Rattle.ber_values.specs.Pieces.{is_piece};
ghost use Rattle.term_values.specs.FilterTrees.{is_context, is_attribute_id, are_attribute_parts, are_pieces};
ghost use Rattle.term_values.specs.FilterTrees.{is_one_attribute_id, is_assertion, is_item, is_one_item, is_filter};
ghost use Rattle.term_values.specs.FilterTrees.{are_filters, is_one_filter};
ghost use Rattle.term_values.specs.Oid.{oid_in};

use crate::identifier_reading::read_oid;
use crate::tagging::is_same_tag;
use ber_tree::tree_reading::read_integer_contents;
use std::alloc::{AllocError, Global};
use term_values::{Body, Tag, Tree, Trees};

fn is_context(number: u32, tag: Tag) -> bool
    ensures { result ≡ is_context number tag }
{
    is_same_tag(Tag::context(number), tag)
}

fn is_identifier(alloc: Global, octets: &[u8]) -> Result<bool, AllocError>
    ensures { IfOk result (λ found. found ≡ is_some (oid_in octets.now)) }
{
    match read_oid(alloc, octets)? {
        Some(_) => Ok(true),
        None => Ok(false),
    }
}

fn is_global(alloc: Global, tag: Tag, octets: &[u8]) -> Result<bool, AllocError>
    ensures { IfOk result (λ found. found ≡ (is_context 0 tag && is_some (oid_in octets.now))) }
{
    if is_context(0, tag) {
        is_identifier(alloc, octets)
    } else {
        Ok(false)
    }
}

fn is_attribute_id(alloc: Global, tree: &Tree) -> Result<bool, AllocError>
    ensures { IfOk result (λ found. found ≡ is_attribute_id tree.now) }
{
    match &tree.body {
        Body::Prim(contents) => {
            let octets = contents.as_slice();
            let global = is_global(alloc, tree.tag, octets)?;
            Ok(global || (is_context(1, tree.tag) && read_integer_contents(octets).is_some()))
        }
        Body::Cons(_) => Ok(false),
    }
}

fn are_attribute_parts(alloc: Global, trees: &Trees) -> Result<bool, AllocError>
    ensures { IfOk result (λ found. found ≡ are_attribute_parts trees.now) }
{
    match trees.items.as_slice() {
        [] => Ok(false),
        [_] => Ok(false),
        [id, _] => is_attribute_id(alloc, id),
        [_, _, _, ..] => Ok(false),
    }
}

fn is_piece(alloc: Global, tree: &Tree) -> Result<bool, AllocError>
    ensures { IfOk result (λ found. found ≡ is_piece tree.now) }
{
    let tag = tree.tag;
    match &tree.body {
        Body::Prim(_) => Ok(false),
        Body::Cons(inside) => {
            if is_context(0, tag) || is_context(1, tag) || is_context(2, tag) {
                are_attribute_parts(alloc, inside)
            } else {
                Ok(false)
            }
        }
    }
}

fn are_pieces(alloc: Global, trees: &Trees) -> Result<bool, AllocError>
    ensures { IfOk result (λ found. found ≡ are_pieces trees.now) }
{
    for tree in trees.items.as_slice() {
        if !is_piece(alloc, tree)? {
            return Ok(false);
        }
    }
    Ok(true)
}

fn is_one_attribute_id(alloc: Global, trees: &Trees) -> Result<bool, AllocError>
    ensures { IfOk result (λ found. found ≡ is_one_attribute_id trees.now) }
{
    match trees.items.as_slice() {
        [] => Ok(false),
        [id] => is_attribute_id(alloc, id),
        [_, _, ..] => Ok(false),
    }
}

fn is_assertion(tag: Tag) -> bool
    ensures { result ≡ is_assertion tag }
{
    is_context(0, tag)
        || is_context(2, tag)
        || is_context(3, tag)
        || is_context(5, tag)
        || is_context(6, tag)
        || is_context(7, tag)
}

fn asserts(alloc: Global, tag: Tag, trees: &Trees) -> Result<bool, AllocError>
    ensures { IfOk result (λ found. found ≡ (is_assertion tag && are_attribute_parts trees.now)) }
{
    if is_assertion(tag) {
        are_attribute_parts(alloc, trees)
    } else {
        Ok(false)
    }
}

fn are_substrings(alloc: Global, tag: Tag, trees: &Trees) -> Result<bool, AllocError>
    ensures { IfOk result (λ found. found ≡ (is_context 1 tag && are_pieces trees.now)) }
{
    if is_context(1, tag) {
        are_pieces(alloc, trees)
    } else {
        Ok(false)
    }
}

fn is_present(alloc: Global, tag: Tag, trees: &Trees) -> Result<bool, AllocError>
    ensures { IfOk result (λ found. found ≡ (is_context 4 tag && is_one_attribute_id trees.now)) }
{
    if is_context(4, tag) {
        is_one_attribute_id(alloc, trees)
    } else {
        Ok(false)
    }
}

fn is_item(alloc: Global, tree: &Tree) -> Result<bool, AllocError>
    ensures { IfOk result (λ found. found ≡ is_item tree.now) }
{
    match &tree.body {
        Body::Prim(_) => Ok(false),
        Body::Cons(inside) => {
            let assertion = asserts(alloc, tree.tag, inside)?;
            let substrings = are_substrings(alloc, tree.tag, inside)?;
            let present = is_present(alloc, tree.tag, inside)?;
            Ok(assertion || substrings || present)
        }
    }
}

fn is_one_item(alloc: Global, trees: &Trees) -> Result<bool, AllocError>
    ensures { IfOk result (λ found. found ≡ is_one_item trees.now) }
{
    match trees.items.as_slice() {
        [] => Ok(false),
        [item] => is_item(alloc, item),
        [_, _, ..] => Ok(false),
    }
}

fn holds_item(alloc: Global, tag: Tag, trees: &Trees) -> Result<bool, AllocError>
    ensures { IfOk result (λ found. found ≡ (is_context 8 tag && is_one_item trees.now)) }
{
    if is_context(8, tag) {
        is_one_item(alloc, trees)
    } else {
        Ok(false)
    }
}

/// Whether the tree is a CMISFilter.
#[cycle(filters)]
pub fn is_filter(alloc: Global, tree: &Tree) -> Result<bool, AllocError>
    ensures { IfOk result (λ found. found ≡ is_filter tree.now) }
{
    match &tree.body {
        Body::Prim(_) => Ok(false),
        Body::Cons(inside) => {
            let item = holds_item(alloc, tree.tag, inside)?;
            let joined = joins(alloc, tree.tag, inside)?;
            let negated = negates(alloc, tree.tag, inside)?;
            Ok(item || joined || negated)
        }
    }
}

#[cycle(filters)]
fn joins(alloc: Global, tag: Tag, trees: &Trees) -> Result<bool, AllocError>
    ensures { IfOk result (λ found. found ≡ ((is_context 9 tag || is_context 10 tag) && are_filters trees.now)) }
{
    if is_context(9, tag) || is_context(10, tag) {
        are_filters(alloc, trees)
    } else {
        Ok(false)
    }
}

#[cycle(filters)]
fn negates(alloc: Global, tag: Tag, trees: &Trees) -> Result<bool, AllocError>
    ensures { IfOk result (λ found. found ≡ (is_context 11 tag && is_one_filter trees.now)) }
{
    if is_context(11, tag) {
        is_one_filter(alloc, trees)
    } else {
        Ok(false)
    }
}

#[cycle(filters)]
fn are_filters(alloc: Global, trees: &Trees) -> Result<bool, AllocError>
    ensures { IfOk result (λ found. found ≡ are_filters trees.now) }
{
    for tree in trees.items.as_slice() {
        if !is_filter(alloc, tree)? {
            return Ok(false);
        }
    }
    Ok(true)
}

#[cycle(filters)]
fn is_one_filter(alloc: Global, trees: &Trees) -> Result<bool, AllocError>
    ensures { IfOk result (λ found. found ≡ is_one_filter trees.now) }
{
    match trees.items.as_slice() {
        [] => Ok(false),
        [only] => is_filter(alloc, only),
        [_, _, ..] => Ok(false),
    }
}
