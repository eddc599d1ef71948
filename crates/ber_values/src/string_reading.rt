//! The octets of strings, primitive or constructed: X.690, sections 8.6, 8.7 and 8.23.

ghost use Rattle.std.specs.Prelude.{◌≡◌, ◌++◌, ◌<◌, IfOk, OnOk};
ghost use Rattle.ber_values.specs.Appending.{appended, kept_where, bits_appended, bits_kept};
ghost use Rattle.term_values.specs.LeafReading.{octets_in, segments_in, bits_of, bits_in, bit_segments_in};
ghost use Rattle.term_values.specs.Strings.{cleared};

use crate::tagging::is_same_tag;
use std::alloc::{AllocError, Global};
use term_values::{Body, Bytes, Tag, Tree, Trees};

/// Appends the octets of a string, and answers whether the tree is one.
#[cycle(segments)]
fn append_octets(tree: &Tree, into: &mut Vec<u8>) -> Result<bool, AllocError>
    ensures { IfOk result (λ whole. appended into.old.items (octets_in tree.now) ≡ kept_where whole into.new.items) }
{
    match &tree.body {
        Body::Prim(contents) => {
            into.extend_from_slice(contents.as_slice())?;
            Ok(true)
        }
        Body::Cons(inside) => append_segments(inside, into),
    }
}

#[cycle(segments)]
fn append_segments(trees: &Trees, into: &mut Vec<u8>) -> Result<bool, AllocError>
    ensures { IfOk result (λ whole. appended into.old.items (segments_in trees.now) ≡ kept_where whole into.new.items) }
{
    for tree in trees.items.as_slice() {
        if !is_same_tag(tree.tag, Tag::OCTET_STRING) {
            return Ok(false);
        }
        if !append_octets(tree, into)? {
            return Ok(false);
        }
    }
    Ok(true)
}

/// The octets of a string, its own tag apart, or none where the tree isn't one.
pub fn read_octets(alloc: Global, tree: &Tree) -> Result<Option<Bytes>, AllocError>
    ensures { IfOk result (λ found. found ≡ octets_in tree.now) }
{
    let mut items = Vec::new(alloc);
    if append_octets(tree, &mut items)? {
        Ok(Some(Bytes { items }))
    } else {
        Ok(None)
    }
}

/// Appends octets with the last bits of the last one 0.
fn append_cleared(unused: u8, given: &[u8], into: &mut Vec<u8>) -> Result<(), AllocError>
    requires { unused < 8 }
    ensures { OnOk result (into.new.items ≡ into.old.items ++ cleared unused given.now) }
{
    for i in 0..given.len() {
        let octet = given[i];
        if i + 1 < given.len() {
            into.push(octet)?;
        } else {
            into.push(octet >> unused << unused)?;
        }
    }
    Ok(())
}

/// Appends the octets that contents octets give, and answers how many bits of the last one are unused.
fn append_bit_contents(contents: &[u8], into: &mut Vec<u8>) -> Result<Option<u8>, AllocError>
    ensures { IfOk result (λ found.
        bits_appended into.old.items (bits_of contents.now) ≡ bits_kept into.new.items found) }
{
    match contents {
        [] => Ok(None),
        [unused, given @ ..] => {
            if *unused < 8 && (*unused == 0 || given.len() > 0) {
                append_cleared(*unused, given, into)?;
                Ok(Some(*unused))
            } else {
                Ok(None)
            }
        }
    }
}

/// Appends the octets of a BIT STRING, and answers how many bits of the last one are unused, or none where the tree
/// isn't one.
#[cycle(bit_segments)]
fn append_bits(tree: &Tree, into: &mut Vec<u8>) -> Result<Option<u8>, AllocError>
    ensures { IfOk result (λ found. bits_appended into.old.items (bits_in tree.now) ≡ bits_kept into.new.items found) }
{
    match &tree.body {
        Body::Prim(contents) => append_bit_contents(contents.as_slice(), into),
        Body::Cons(inside) => append_bit_segments(inside, into),
    }
}

#[cycle(bit_segments)]
fn append_bit_segments(trees: &Trees, into: &mut Vec<u8>) -> Result<Option<u8>, AllocError>
    ensures { IfOk result (λ found.
        bits_appended into.old.items (bit_segments_in trees.now) ≡ bits_kept into.new.items found) }
{
    let mut unused = 0;
    for tree in trees.items.as_slice() {
        if unused != 0 || !is_same_tag(tree.tag, Tag::BIT_STRING) {
            return Ok(None);
        }
        match append_bits(tree, into)? {
            None => return Ok(None),
            Some(bits) => unused = bits,
        }
    }
    Ok(Some(unused))
}

/// The octets of a BIT STRING, its own tag apart, and how many bits of the last one are unused, or none where the tree
/// isn't one.
pub fn read_bits(alloc: Global, tree: &Tree) -> Result<Option<(Bytes, u8)>, AllocError>
    ensures { IfOk result (λ found. found ≡ bits_in tree.now) }
{
    let mut items = Vec::new(alloc);
    match append_bits(tree, &mut items)? {
        None => Ok(None),
        Some(unused) => Ok(Some((Bytes { items }, unused))),
    }
}
