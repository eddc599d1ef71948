//! Names: X.501, type RDNSequence.

ghost use Rattle.std.specs.Prelude.{◌≡◌, IfOk, None, Some, is_some, if◌then◌else◌};
ghost use Rattle.std.specs.Option.{option_map, option_copied};
ghost use Rattle.term_values.specs.Decoding.{value_in};
ghost use Rattle.term_values.specs.Tree.{listed};
ghost use Rattle.term_values.specs.Written.{der};
ghost use Rattle.term_model.specs.Parts.{oid_under};
ghost use Rattle.term_model.specs.InstanceNames.{are_assertions, asserted_octets, asserted_rdn, assertion_in, below};
ghost use Rattle.term_model.specs.InstanceNames.{rdn_in, rdn_inside, rdns_in};

use crate::asserting::{value_of, written};
use crate::parts::{contents_of, inside_of, two_of};
use ber_values::encode_into;
use ber_values::identifier_reading::read_oid;
use std::alloc::{AllocError, Global};
use term_model::{AttrRec, AttrRecs, Name, Rdn};
use term_values::{Bytes, Oid, Syntax, Tag, Tree};

/// An identifier under this tag.
fn oid_of(alloc: Global, tree: &Tree, tag: Tag) -> Result<Option<Oid>, AllocError>
    ensures { IfOk result (λ oid. oid ≡ oid_under tag tree.now) }
{
    match contents_of(tree, tag) {
        None => Ok(None),
        Some(contents) => read_oid(alloc, contents),
    }
}

/// The octets of the value of a syntax that a tree denotes, in their one form.
fn fitting_octets(alloc: Global, syntax: &Syntax, tree: &Tree) -> Result<Option<Bytes>, AllocError>
    ensures { IfOk result (λ octets. octets ≡ option_map (der syntax.now) (value_in syntax.now tree.now)) }
{
    match value_of(alloc, syntax, tree)? {
        None => Ok(None),
        Some(value) => {
            let mut items = Vec::new(alloc);
            encode_into(alloc, syntax, &value, &mut items)?;
            Ok(Some(Bytes { items }))
        }
    }
}

/// The octets of an asserted value in a name, or none where the value doesn't fit its attribute.
fn asserted_octets(
    alloc: Global,
    attribute: Option<&AttrRec>,
    tree: &Tree,
) -> Result<Option<Bytes>, AllocError>
    ensures { IfOk result (λ octets. octets ≡ asserted_octets (option_copied attribute.entry) tree.now) }
{
    match attribute {
        None => Ok(Some(written(alloc, tree)?)),
        Some(attribute) => fitting_octets(alloc, &attribute.syntax, tree),
    }
}

/// The part of a name, or none where the value doesn't fit its attribute.
fn asserted_rdn(
    alloc: Global,
    records: &AttrRecs,
    attribute: Oid,
    tree: &Tree,
) -> Result<Option<Rdn>, AllocError>
    ensures { IfOk result (λ rdn. rdn ≡ asserted_rdn records.now (attribute, tree.now)) }
{
    match asserted_octets(alloc, records.find(&attribute), tree)? {
        None => Ok(None),
        Some(value) => Ok(Some(Rdn { attribute, value })),
    }
}

/// The part of a name that an attribute value assertion gives: outside, none where the tree is no assertion.
fn single_rdn(
    alloc: Global,
    records: &AttrRecs,
    tree: &Tree,
) -> Result<Option<Option<Rdn>>, AllocError>
    ensures { IfOk result (λ rdn. rdn ≡ option_map (asserted_rdn records.now) (assertion_in tree.now)) }
{
    match two_of(tree, Tag::SEQUENCE) {
        None => Ok(None),
        Some((id, value)) => match oid_of(alloc, id, Tag::OBJECT_IDENTIFIER)? {
            None => Ok(None),
            Some(attribute) => Ok(Some(asserted_rdn(alloc, records, attribute, value)?)),
        },
    }
}

/// The tree is an attribute value assertion.
fn is_assertion(alloc: Global, tree: &Tree) -> Result<bool, AllocError>
    ensures { IfOk result (λ holds. holds ≡ is_some (assertion_in tree.now)) }
{
    match two_of(tree, Tag::SEQUENCE) {
        None => Ok(false),
        Some((id, _)) => match oid_of(alloc, id, Tag::OBJECT_IDENTIFIER)? {
            None => Ok(false),
            Some(_) => Ok(true),
        },
    }
}

/// Each of the trees is an attribute value assertion.
fn are_assertions(alloc: Global, trees: &[Tree]) -> Result<bool, AllocError>
    ensures { IfOk result (λ hold. hold ≡ are_assertions (listed trees.now)) }
{
    for tree in trees {
        if !is_assertion(alloc, tree)? {
            return Ok(false);
        }
    }
    Ok(true)
}

/// No part, where each of the trees is an assertion.
fn no_rdn(alloc: Global, trees: &[Tree]) -> Result<Option<Option<Rdn>>, AllocError>
    ensures { IfOk result (λ rdn. rdn ≡ (if are_assertions (listed trees.now) then Some None else None)) }
{
    if are_assertions(alloc, trees)? {
        Ok(Some(None))
    } else {
        Ok(None)
    }
}

/// The part of a name that the assertions of a RelativeDistinguishedName give.
fn rdn_inside(
    alloc: Global,
    records: &AttrRecs,
    trees: &[Tree],
) -> Result<Option<Option<Rdn>>, AllocError>
    ensures { IfOk result (λ rdn. rdn ≡ rdn_inside records.now (listed trees.now)) }
{
    match trees.split_first() {
        None => Ok(Some(None)),
        Some((first, rest)) => match rest.split_first() {
            None => single_rdn(alloc, records, first),
            Some(_) => no_rdn(alloc, trees),
        },
    }
}

/// The part of a name that a RelativeDistinguishedName gives.
fn rdn_in(alloc: Global, records: &AttrRecs, tree: &Tree) -> Result<Option<Option<Rdn>>, AllocError>
    ensures { IfOk result (λ rdn. rdn ≡ rdn_in records.now tree.now) }
{
    match inside_of(tree, Tag::SET) {
        None => Ok(None),
        Some(inside) => rdn_inside(alloc, records, inside),
    }
}

/// The name that an RDNSequence gives: outside, none where it is none; inside, none where one of its parts is none of
/// a name.
pub fn rdns_in(
    alloc: Global,
    records: &AttrRecs,
    trees: &[Tree],
) -> Result<Option<Option<Name>>, AllocError>
    ensures { IfOk result (λ name. name ≡ rdns_in records.now (listed trees.now)) }
{
    let mut parts = Vec::new(alloc);
    let mut whole = true;
    for tree in trees {
        match rdn_in(alloc, records, tree)? {
            None => return Ok(None),
            Some(None) => whole = false,
            Some(Some(rdn)) => parts.push(rdn)?,
        }
    }
    if whole {
        Ok(Some(Some(Name { parts })))
    } else {
        Ok(Some(None))
    }
}

/// The name below the root of an object of the system with this name.
pub fn below(system: &Name, name: Name) -> Result<Option<Name>, AllocError>
    ensures { IfOk result (λ rest. rest ≡ below system.now name) }
{
    let mut parts = name.parts;
    let front = system.parts.as_slice();
    if parts.as_slice().starts_with(front) {
        let parts = parts.split_off(front.len())?;
        Ok(Some(Name { parts }))
    } else {
        Ok(None)
    }
}
