//! Attribute value assertions in requests: X.711, section 7.5, types ObjectClass, AttributeId, ActionTypeId,
//! EventTypeId and Attribute.

ghost use Rattle.std.specs.Prelude.{◌≡◌, IfOk};
ghost use Rattle.std.specs.Option.{option_copied, option_map};
ghost use Rattle.term_values.specs.Decoding.{value_in};
ghost use Rattle.term_values.specs.Der.{written};
ghost use Rattle.term_values.specs.FilterTrees.{is_context};
ghost use Rattle.term_values.specs.Octets.{integer_in};
ghost use Rattle.term_values.specs.Oid.{oid_in};
ghost use Rattle.term_model.specs.declared.request.IdRef.TheVariants.{Global as GlobalId, Local as LocalId};
ghost use Rattle.term_model.specs.Assertions.{asserted_in, attribute_given, given_in, given_of, id_in};
ghost use Rattle.term_model.specs.FilterTruth.{named_record};

use ber_tree::tree_reading::read_integer_contents;
use ber_tree::tree_writing::write_tree;
use ber_values::identifier_reading::read_oid;
use ber_values::tagging::is_same_tag;
use ber_values::{DecodeRefusal, decode};
use std::alloc::{AllocError, Global};
use term_model::{AttrRec, Given, IdRef, Set};
use term_values::{Body, Bytes, Syntax, Tag, Tree, Trees, Value};

/// The tag of globalForm in AttributeId and ObjectClass.
pub const GLOBAL_FORM: u32 = 0;

/// The tag of localForm in AttributeId and ObjectClass.
pub const LOCAL_FORM: u32 = 1;

/// Whether the tag is the context-specific one with this number.
pub fn is_context(number: u32, tag: Tag) -> bool
    ensures { result ≡ is_context number tag }
{
    is_same_tag(Tag::context(number), tag)
}

/// The identifier in globalForm.
fn read_global(alloc: Global, octets: &[u8]) -> Result<Option<IdRef>, AllocError>
    ensures { IfOk result (λ found. found ≡ option_map GlobalId (oid_in octets.now)) }
{
    match read_oid(alloc, octets)? {
        Some(oid) => Ok(Some(IdRef::Global(oid))),
        None => Ok(None),
    }
}

/// The identifier in localForm.
fn read_local(octets: &[u8]) -> Option<IdRef>
    ensures { result ≡ option_map LocalId (integer_in octets.now) }
{
    match read_integer_contents(octets) {
        Some(number) => Some(IdRef::Local(number)),
        None => None,
    }
}

/// The identifier that a tree gives, in globalForm or localForm with the context tags of these numbers, or none.
pub fn read_id(
    alloc: Global,
    global: u32,
    local: u32,
    tree: &Tree,
) -> Result<Option<IdRef>, AllocError>
    ensures { IfOk result (λ found. found ≡ id_in global local tree.now) }
{
    match &tree.body {
        Body::Prim(contents) => {
            let octets = contents.as_slice();
            if is_context(global, tree.tag) {
                read_global(alloc, octets)
            } else if is_context(local, tree.tag) {
                Ok(read_local(octets))
            } else {
                Ok(None)
            }
        }
        Body::Cons(_) => Ok(None),
    }
}

/// The value that the tree denotes in the syntax, or none.
fn read_value(alloc: Global, syntax: &Syntax, tree: &Tree) -> Result<Option<Value>, AllocError>
    ensures { IfOk result (λ value. value ≡ value_in syntax.now tree.now) }
{
    match decode(alloc, syntax, tree) {
        Ok(value) => Ok(Some(value)),
        Err(DecodeRefusal::Misfit) => Ok(None),
        Err(DecodeRefusal::Memory) => Err(AllocError),
    }
}

/// The value that the tree denotes in the syntax of what is identified, or none.
fn read_asserted(
    alloc: Global,
    syntax: Option<&Syntax>,
    tree: &Tree,
) -> Result<Option<Value>, AllocError>
    ensures { IfOk result (λ value. value ≡ asserted_in (option_copied syntax.entry) tree.now) }
{
    match syntax {
        Some(syntax) => read_value(alloc, syntax, tree),
        None => Ok(None),
    }
}

/// The octets of a tree, as they are given back: with the shortest definite lengths.
pub fn kept(alloc: Global, tree: &Tree) -> Result<Bytes, AllocError>
    ensures { IfOk result (λ octets. octets ≡ written tree.now) }
{
    let mut items = Vec::new(alloc);
    write_tree(tree, &mut items)?;
    Ok(Bytes { items })
}

/// The assertion of a value of what is identified, which has this syntax, or none where it is unknown or has no syntax.
pub fn read_given(
    alloc: Global,
    syntax: Option<&Syntax>,
    id: IdRef,
    tree: &Tree,
) -> Result<Given, AllocError>
    ensures { IfOk result (λ given. given ≡ given_of (option_copied syntax.entry) id tree.now) }
{
    let value = read_asserted(alloc, syntax, tree)?;
    let raw = kept(alloc, tree)?;
    Ok(Given { id, value, raw })
}

/// The record of the attribute that is named, where it is known.
pub fn named_attribute<'a>(set: &'a Set, id: &IdRef) -> Option<&'a AttrRec>
    ensures { option_copied result ≡ named_record set.now.attributes id.now }
{
    match id {
        IdRef::Global(id) => set.attributes.find(id),
        IdRef::Local(_) => None,
    }
}

/// The assertion of a value of an attribute.
pub fn read_attribute(alloc: Global, set: &Set, id: IdRef, tree: &Tree) -> Result<Given, AllocError>
    ensures { IfOk result (λ given. given ≡ attribute_given set.now.attributes id tree.now) }
{
    match named_attribute(set, &id) {
        Some(known) => read_given(alloc, Some(&known.syntax), id, tree),
        None => read_given(alloc, None, id, tree),
    }
}

/// The assertion that the components of an Attribute give, or none.
pub fn read_components(alloc: Global, set: &Set, trees: &Trees) -> Result<Option<Given>, AllocError>
    ensures { IfOk result (λ found. found ≡ given_in set.now.attributes trees.now) }
{
    match trees.items.as_slice() {
        [] => Ok(None),
        [_] => Ok(None),
        [id, value] => match read_id(alloc, GLOBAL_FORM, LOCAL_FORM, id)? {
            Some(id) => Ok(Some(read_attribute(alloc, set, id, value)?)),
            None => Ok(None),
        },
        [_, _, _, ..] => Ok(None),
    }
}
