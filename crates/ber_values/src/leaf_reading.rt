//! The values that trees denote, where they hold no others: X.690, sections 8.2 to 8.8, 8.19 and 8.23.

ghost use Rattle.std.specs.Prelude.{◌≡◌, IfOk};
ghost use Rattle.term_values.specs.Decoding.{under};
ghost use Rattle.term_values.specs.LeafReading.{truth_in, null_in, whole_in, named_in, bit_string_in, octet_string_in};
ghost use Rattle.term_values.specs.LeafReading.{identifier_in, text_in, time_in};
ghost use Rattle.term_values.specs.UniversalTags.{boolean, integer, bit_string, octet_string, null, object_identifier};
ghost use Rattle.term_values.specs.UniversalTags.{enumerated, generalized_time, text_tag};

use crate::identifier_reading::read_oid;
use crate::string_reading::{read_bits, read_octets};
use crate::tagging::is_due;
use ber_tree::tree_reading::read_integer_contents;
use std::alloc::{AllocError, Global};
use term_values::times::is_time;
use term_values::{Body, Charset, Names, Ranges, Tag, Tree, Value, ValueForm};

fn truth_in(tree: &Tree) -> Option<Value>
    ensures { result ≡ truth_in tree.now }
{
    match &tree.body {
        Body::Prim(contents) => match contents.as_slice() {
            [octet] => Some(Value {
                form: ValueForm::Bool(*octet != 0),
            }),
            _ => None,
        },
        Body::Cons(_) => None,
    }
}

/// A BOOLEAN.
pub fn read_truth(replaced: bool, tree: &Tree) -> Option<Value>
    ensures { result ≡ under replaced boolean truth_in tree.now }
{
    if is_due(replaced, Tag::BOOLEAN, tree) {
        truth_in(tree)
    } else {
        None
    }
}

fn null_in(tree: &Tree) -> Option<Value>
    ensures { result ≡ null_in tree.now }
{
    match &tree.body {
        Body::Prim(contents) => match contents.as_slice() {
            [] => Some(Value {
                form: ValueForm::Null,
            }),
            _ => None,
        },
        Body::Cons(_) => None,
    }
}

/// A NULL.
pub fn read_null(replaced: bool, tree: &Tree) -> Option<Value>
    ensures { result ≡ under replaced null null_in tree.now }
{
    if is_due(replaced, Tag::NULL, tree) {
        null_in(tree)
    } else {
        None
    }
}

fn whole_in(ranges: &Ranges, tree: &Tree) -> Option<Value>
    ensures { result ≡ whole_in ranges.now tree.now }
{
    match &tree.body {
        Body::Prim(contents) => match read_integer_contents(contents.as_slice()) {
            Some(number) if ranges.allow(number) => Some(Value {
                form: ValueForm::Int(number),
            }),
            _ => None,
        },
        Body::Cons(_) => None,
    }
}

/// An INTEGER.
pub fn read_whole(replaced: bool, ranges: &Ranges, tree: &Tree) -> Option<Value>
    ensures { result ≡ under replaced integer (whole_in ranges.now) tree.now }
{
    if is_due(replaced, Tag::INTEGER, tree) {
        whole_in(ranges, tree)
    } else {
        None
    }
}

fn named_in(names: &Names, tree: &Tree) -> Option<Value>
    ensures { result ≡ named_in names.now tree.now }
{
    match &tree.body {
        Body::Prim(contents) => match read_integer_contents(contents.as_slice()) {
            Some(number) if names.have(number) => Some(Value {
                form: ValueForm::Int(number),
            }),
            _ => None,
        },
        Body::Cons(_) => None,
    }
}

/// An ENUMERATED.
pub fn read_named(replaced: bool, names: &Names, tree: &Tree) -> Option<Value>
    ensures { result ≡ under replaced enumerated (named_in names.now) tree.now }
{
    if is_due(replaced, Tag::ENUMERATED, tree) {
        named_in(names, tree)
    } else {
        None
    }
}

fn identifier_in(alloc: Global, tree: &Tree) -> Result<Option<Value>, AllocError>
    ensures { IfOk result (λ found. found ≡ identifier_in tree.now) }
{
    match &tree.body {
        Body::Prim(contents) => match read_oid(alloc, contents.as_slice())? {
            Some(id) => Ok(Some(Value {
                form: ValueForm::Oid(id),
            })),
            None => Ok(None),
        },
        Body::Cons(_) => Ok(None),
    }
}

/// An OBJECT IDENTIFIER.
pub fn read_identifier(
    alloc: Global,
    replaced: bool,
    tree: &Tree,
) -> Result<Option<Value>, AllocError>
    ensures { IfOk result (λ found. found ≡ under replaced object_identifier identifier_in tree.now) }
{
    if is_due(replaced, Tag::OBJECT_IDENTIFIER, tree) {
        identifier_in(alloc, tree)
    } else {
        Ok(None)
    }
}

fn octet_string_in(alloc: Global, sizes: &Ranges, tree: &Tree) -> Result<Option<Value>, AllocError>
    ensures { IfOk result (λ found. found ≡ octet_string_in sizes.now tree.now) }
{
    match read_octets(alloc, tree)? {
        None => Ok(None),
        Some(octets) => {
            if sizes.allow_size(octets.as_slice().len()) {
                Ok(Some(Value {
                    form: ValueForm::Octets(octets),
                }))
            } else {
                Ok(None)
            }
        }
    }
}

/// An OCTET STRING.
pub fn read_octet_string(
    alloc: Global,
    replaced: bool,
    sizes: &Ranges,
    tree: &Tree,
) -> Result<Option<Value>, AllocError>
    ensures { IfOk result (λ found. found ≡ under replaced octet_string (octet_string_in sizes.now) tree.now) }
{
    if is_due(replaced, Tag::OCTET_STRING, tree) {
        octet_string_in(alloc, sizes, tree)
    } else {
        Ok(None)
    }
}

fn text_in(
    alloc: Global,
    charset: Charset,
    sizes: &Ranges,
    tree: &Tree,
) -> Result<Option<Value>, AllocError>
    ensures { IfOk result (λ found. found ≡ text_in charset sizes.now tree.now) }
{
    match read_octets(alloc, tree)? {
        None => Ok(None),
        Some(octets) => {
            let text = octets.as_slice();
            if charset.has_all(text) && sizes.allow_size(text.len()) {
                Ok(Some(Value {
                    form: ValueForm::Text(octets),
                }))
            } else {
                Ok(None)
            }
        }
    }
}

/// A value of a string type.
pub fn read_text(
    alloc: Global,
    replaced: bool,
    charset: Charset,
    sizes: &Ranges,
    tree: &Tree,
) -> Result<Option<Value>, AllocError>
    ensures { IfOk result (λ found. found ≡ under replaced (text_tag charset) (text_in charset sizes.now) tree.now) }
{
    if is_due(replaced, Tag::text(charset), tree) {
        text_in(alloc, charset, sizes, tree)
    } else {
        Ok(None)
    }
}

fn time_in(alloc: Global, tree: &Tree) -> Result<Option<Value>, AllocError>
    ensures { IfOk result (λ found. found ≡ time_in tree.now) }
{
    match read_octets(alloc, tree)? {
        None => Ok(None),
        Some(octets) => {
            if is_time(octets.as_slice()) {
                Ok(Some(Value {
                    form: ValueForm::Time(octets),
                }))
            } else {
                Ok(None)
            }
        }
    }
}

/// A GeneralizedTime.
pub fn read_time(alloc: Global, replaced: bool, tree: &Tree) -> Result<Option<Value>, AllocError>
    ensures { IfOk result (λ found. found ≡ under replaced generalized_time time_in tree.now) }
{
    if is_due(replaced, Tag::GENERALIZED_TIME, tree) {
        time_in(alloc, tree)
    } else {
        Ok(None)
    }
}

fn bit_string_in(alloc: Global, sizes: &Ranges, tree: &Tree) -> Result<Option<Value>, AllocError>
    ensures { IfOk result (λ found. found ≡ bit_string_in sizes.now tree.now) }
{
    match read_bits(alloc, tree)? {
        None => Ok(None),
        Some((octets, unused)) => {
            if sizes.allow_bits(octets.as_slice(), unused) {
                Ok(Some(Value {
                    form: ValueForm::Bits(octets, unused),
                }))
            } else {
                Ok(None)
            }
        }
    }
}

/// A BIT STRING.
pub fn read_bit_string(
    alloc: Global,
    replaced: bool,
    sizes: &Ranges,
    tree: &Tree,
) -> Result<Option<Value>, AllocError>
    ensures { IfOk result (λ found. found ≡ under replaced bit_string (bit_string_in sizes.now) tree.now) }
{
    if is_due(replaced, Tag::BIT_STRING, tree) {
        bit_string_in(alloc, sizes, tree)
    } else {
        Ok(None)
    }
}
