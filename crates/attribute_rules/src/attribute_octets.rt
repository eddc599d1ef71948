//! The written encoding of an attribute: X.711, section 7.5, type Attribute.
#![tactic(auto, using(ber_tree::proofs::Extending::extending))]

ghost use Rattle.std.specs.Prelude.{◌≡◌, ◌++◌, IfOk, OnOk, length, reverse};
ghost use Rattle.ber_tree.specs.Writing.{Extends};
ghost use Rattle.term_model.specs.ObjectOperation.{attribute_octets, value_octets};

use ber_tree::tree_writing::write_header_backwards;
use ber_tree::value_writing::write_oid_backwards;
use ber_values::encoding::encode_backwards;
use result_contents::information::GLOBAL_FORM;
use std::alloc::{AllocError, Global};
use term_model::{AttrRecs, Attribute};
use term_values::Tag;

/// Appends the written encoding of an attribute's value, the last octet first; one without a record has none.
fn write_attribute_value(
    alloc: Global,
    records: &AttrRecs,
    attribute: &Attribute,
    into: &mut Vec<u8>,
) -> Result<(), AllocError>
    ensures written { OnOk result
        (into.new.items ≡ into.old.items ++ reverse (value_octets records.now attribute.now)) }
    ensures begun { Extends into.old.items into.new.items }
{
    match records.find(&attribute.id) {
        Some(found) => encode_backwards(alloc, &found.syntax, &attribute.value, into),
        None => Ok(()),
    }
}

/// Appends an Attribute, the last octet first: its identifier in globalForm and its value.
fn write_attribute(
    alloc: Global,
    records: &AttrRecs,
    attribute: &Attribute,
    into: &mut Vec<u8>,
) -> Result<(), AllocError>
    ensures written { OnOk result
        (into.new.items ≡ into.old.items ++ reverse (attribute_octets records.now attribute.now)) }
    ensures begun { Extends into.old.items into.new.items }
{
    let start = into.as_slice().len();
    write_attribute_value(alloc, records, attribute, into)?;
    write_oid_backwards(GLOBAL_FORM, &attribute.id, into)?;
    let size = into.as_slice().len() - start;
    write_header_backwards(true, Tag::SEQUENCE, size, into)
}

/// How many octets an Attribute takes.
pub fn attribute_length(
    alloc: Global,
    records: &AttrRecs,
    attribute: &Attribute,
) -> Result<usize, AllocError>
    ensures { IfOk result (λ size. size ≡ length (attribute_octets records.now attribute.now)) }
{
    let mut items = Vec::new(alloc);
    write_attribute(alloc, records, attribute, &mut items)?;
    Ok(items.as_slice().len())
}
