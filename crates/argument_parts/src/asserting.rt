//! Attribute value assertions: X.711, section 7.5, types AttributeId and Attribute.

ghost use Rattle.std.specs.Prelude.{◌≡◌, IfOk};
ghost use Rattle.std.specs.Option.{option_map, option_copied};
ghost use Rattle.term_values.specs.Decoding.{value_in};
ghost use Rattle.term_values.specs.Der.{written};
ghost use Rattle.term_values.specs.Oid.{oid_in};
ghost use Rattle.term_values.specs.Octets.{integer_in};
ghost use Rattle.term_values.specs.Tree.{listed};
ghost use Rattle.term_model.specs.declared.request.IdRef.TheVariants as ids;
ghost use Rattle.term_model.specs.Assertions.{asserted_in, attribute_given, attribute_syntax, given_in, given_of, id_in};

use crate::parts::pair;
use crate::rows::is_context;
use ber_tree::tree_reading::read_integer_contents;
use ber_tree::tree_writing::write_tree;
use ber_values::identifier_reading::read_oid;
use ber_values::{DecodeRefusal, decode};
use std::alloc::{AllocError, Global};
use term_model::{AttrRecs, Given, IdRef};
use term_values::{Body, Bytes, Syntax, Tree, Value};

/// The octets of a tree in the form in which an ANY is kept.
pub fn written(alloc: Global, tree: &Tree) -> Result<Bytes, AllocError>
    ensures { IfOk result (λ octets. octets ≡ written tree.now) }
{
    let mut items = Vec::new(alloc);
    write_tree(tree, &mut items)?;
    Ok(Bytes { items })
}

fn global_id(alloc: Global, contents: &[u8]) -> Result<Option<IdRef>, AllocError>
    ensures { IfOk result (λ id. id ≡ option_map ids.Global (oid_in contents.now)) }
{
    match read_oid(alloc, contents)? {
        None => Ok(None),
        Some(id) => Ok(Some(IdRef::Global(id))),
    }
}

fn local_id(contents: &[u8]) -> Option<IdRef>
    ensures { result ≡ option_map ids.Local (integer_in contents.now) }
{
    Some(IdRef::Local(read_integer_contents(contents)?))
}

/// An identifier in globalForm or in localForm, by the numbers of their tags.
pub fn read_id(
    alloc: Global,
    global: u32,
    local: u32,
    tree: &Tree,
) -> Result<Option<IdRef>, AllocError>
    ensures { IfOk result (λ id. id ≡ id_in global local tree.now) }
{
    match &tree.body {
        Body::Cons(_) => Ok(None),
        Body::Prim(contents) => {
            if is_context(global, tree.tag) {
                global_id(alloc, contents.as_slice())
            } else if is_context(local, tree.tag) {
                Ok(local_id(contents.as_slice()))
            } else {
                Ok(None)
            }
        }
    }
}

/// The value of a syntax that a tree denotes.
pub fn value_of(alloc: Global, syntax: &Syntax, tree: &Tree) -> Result<Option<Value>, AllocError>
    ensures { IfOk result (λ value. value ≡ value_in syntax.now tree.now) }
{
    match decode(alloc, syntax, tree) {
        Ok(value) => Ok(Some(value)),
        Err(DecodeRefusal::Misfit) => Ok(None),
        Err(DecodeRefusal::Memory) => Err(AllocError),
    }
}

/// The value that a tree denotes, where there is a syntax.
pub fn asserted(
    alloc: Global,
    syntax: Option<&Syntax>,
    tree: &Tree,
) -> Result<Option<Value>, AllocError>
    ensures { IfOk result (λ value. value ≡ asserted_in (option_copied syntax.entry) tree.now) }
{
    match syntax {
        None => Ok(None),
        Some(syntax) => value_of(alloc, syntax, tree),
    }
}

/// The assertion of what is identified.
pub fn given(
    alloc: Global,
    syntax: Option<&Syntax>,
    id: IdRef,
    tree: &Tree,
) -> Result<Given, AllocError>
    ensures { IfOk result (λ given. given ≡ given_of (option_copied syntax.entry) id tree.now) }
{
    let value = asserted(alloc, syntax, tree)?;
    let raw = written(alloc, tree)?;
    Ok(Given { id, value, raw })
}

/// The syntax of the attribute that is named, where it is known.
pub fn attribute_syntax<'a>(records: &'a AttrRecs, id: &IdRef) -> Option<&'a Syntax>
    ensures { option_copied result ≡ attribute_syntax records.now id.now }
{
    match id {
        IdRef::Global(id) => Some(&records.find(id)?.syntax),
        IdRef::Local(_) => None,
    }
}

/// The assertion of an attribute.
pub fn attribute_given(
    alloc: Global,
    records: &AttrRecs,
    id: IdRef,
    tree: &Tree,
) -> Result<Given, AllocError>
    ensures { IfOk result (λ given. given ≡ attribute_given records.now id tree.now) }
{
    let syntax = attribute_syntax(records, &id);
    given(alloc, syntax, id, tree)
}

/// The components of an Attribute.
pub fn read_given(
    alloc: Global,
    records: &AttrRecs,
    trees: &[Tree],
) -> Result<Option<Given>, AllocError>
    ensures { IfOk result (λ given. given ≡ given_in records.now (listed trees.now)) }
{
    match pair(trees) {
        None => Ok(None),
        Some((id, value)) => match read_id(alloc, 0, 1, id)? {
            None => Ok(None),
            Some(id) => Ok(Some(attribute_given(alloc, records, id, value)?)),
        },
    }
}

/// A copy of an identifier.
pub fn copy_id(alloc: Global, id: &IdRef) -> Result<IdRef, AllocError>
    ensures { IfOk result (λ copy. copy ≡ id.now) }
{
    match id {
        IdRef::Global(id) => Ok(IdRef::Global(id.copy(alloc)?)),
        IdRef::Local(number) => Ok(IdRef::Local(*number)),
    }
}
