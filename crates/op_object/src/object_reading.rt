//! What a Get does to one object: X.711, section 7.4. The result is written with its last octet first, so that the
//! length of each part is known when its header is written.
#![tactic(auto, using(ber_tree::proofs::Extending::extending))]

ghost use Rattle.std.specs.Prelude.{◌≡◌, ◌++◌, IfOk, OnOk, map, reverse, true};
ghost use Rattle.ber_tree.specs.Writing.{Extends};
ghost use Rattle.term_values.specs.Rearranged.{joined, rising};
ghost use Rattle.term_model.specs.GetRequest.{class_octets, instance_octets};
ghost use Rattle.term_model.specs.ObjectOperation.{attribute_octets, attributes_octets, get_one, readable, time_octets};
ghost use Rattle.term_model.specs.ObjectOperation.{value_octets};

use crate::property_lists::readable_attributes;
use ber_tree::tree_writing::{reverse_from, write_header_backwards};
use ber_tree::value_writing::{write_oid_backwards, write_value_backwards};
use ber_values::encoding::{encode_backwards, write_rising};
use result_contents::information::GLOBAL_FORM;
use result_contents::names::write_instance;
use std::alloc::{AllocError, Global};
use term_model::{AttrRecs, Attribute, Attrs, Object, Rdn, Set};
use term_values::tag::CONTEXT;
use term_values::{Bytes, Tag};

/// The tag of currentTime in a result.
const CURRENT_TIME: Tag = Tag {
    class: CONTEXT,
    number: 5,
};

/// The tag of the attribute list in a result.
const ATTRIBUTE_LIST: Tag = Tag {
    class: CONTEXT,
    number: 6,
};

/// Appends the written encoding of an attribute's value, the last octet first; one without a record has none.
fn write_attribute_value(
    alloc: Global,
    records: &AttrRecs,
    attribute: &Attribute,
    into: &mut Vec<u8>,
) -> Result<(), AllocError>
    ensures written { OnOk result
        (into.new.items ≡ into.old.items ++ reverse (value_octets records.now attribute.now)) }
    ensures begun { Extends into.old.items into.new.items }
{
    match records.find(&attribute.id) {
        Some(found) => encode_backwards(alloc, &found.syntax, &attribute.value, into),
        None => Ok(()),
    }
}

/// Appends an Attribute, the last octet first: its identifier in globalForm and its value.
fn write_attribute(
    alloc: Global,
    records: &AttrRecs,
    attribute: &Attribute,
    into: &mut Vec<u8>,
) -> Result<(), AllocError>
    ensures written { OnOk result
        (into.new.items ≡ into.old.items ++ reverse (attribute_octets records.now attribute.now)) }
    ensures begun { Extends into.old.items into.new.items }
{
    let start = into.as_slice().len();
    write_attribute_value(alloc, records, attribute, into)?;
    write_oid_backwards(GLOBAL_FORM, &attribute.id, into)?;
    let size = into.as_slice().len() - start;
    write_header_backwards(true, Tag::SEQUENCE, size, into)
}

/// The octets of an Attribute.
fn attribute_octets(
    alloc: Global,
    records: &AttrRecs,
    attribute: &Attribute,
) -> Result<Bytes, AllocError>
    ensures { IfOk result (λ octets. octets ≡ attribute_octets records.now attribute.now) }
{
    let mut items = Vec::new(alloc);
    write_attribute(alloc, records, attribute, &mut items)?;
    reverse_from(0, &mut items);
    Ok(Bytes { items })
}

/// The octets of attributes as the contents of a SET OF Attribute.
pub fn attribute_set(
    alloc: Global,
    records: &AttrRecs,
    attrs: &Attrs,
) -> Result<Vec<u8>, AllocError>
    ensures { IfOk result (λ octets. octets.items
        ≡ joined (rising (map (attribute_octets records.now) attrs.now))) }
{
    let mut members = Vec::new(alloc);
    for attribute in &attrs.items {
        members.push(attribute_octets(alloc, records, attribute)?)?;
    }
    let mut contents = Vec::new(alloc);
    write_rising(members, &mut contents)?;
    reverse_from(0, &mut contents);
    Ok(contents)
}

/// The octets of each attribute that a Get without a list gives.
fn readable_members(alloc: Global, schema: &Set, object: &Object) -> Result<Vec<Bytes>, AllocError>
    ensures { IfOk result (λ members. members.items
        ≡ map (attribute_octets schema.now.attributes) (readable schema.now object.now)) }
{
    let ids = readable_attributes(alloc, schema, &object.class)?;
    let mut members = Vec::new(alloc);
    for attribute in &object.attrs.items {
        if ids.contains(&attribute.id) {
            members.push(attribute_octets(alloc, &schema.attributes, attribute)?)?;
        }
    }
    Ok(members)
}

/// Appends the attributes that a Get without a list gives, the last octet first.
fn write_attributes(
    alloc: Global,
    schema: &Set,
    object: &Object,
    into: &mut Vec<u8>,
) -> Result<(), AllocError>
    ensures written { OnOk result (into.new.items
        ≡ into.old.items ++ reverse (attributes_octets schema.now.attributes (readable schema.now object.now))) }
    ensures begun { Extends into.old.items into.new.items }
{
    let start = into.as_slice().len();
    let members = readable_members(alloc, schema, object)?;
    write_rising(members, into)?;
    let size = into.as_slice().len() - start;
    write_header_backwards(true, ATTRIBUTE_LIST, size, into)
}

/// Appends what stands in the GetResult of an object, granted at the moment that `time` tells, the last octet first.
fn write_result_contents(
    alloc: Global,
    schema: &Set,
    name: &[Rdn],
    object: &Object,
    time: &[u8],
    into: &mut Vec<u8>,
) -> Result<(), AllocError>
    ensures written { OnOk result (into.new.items ≡ into.old.items
        ++ reverse (class_octets object.now.class ++ (instance_octets name.now ++ (time_octets time.now
        ++ attributes_octets schema.now.attributes (readable schema.now object.now))))) }
    ensures begun { Extends into.old.items into.new.items }
{
    write_attributes(alloc, schema, object, into)?;
    write_value_backwards(false, CURRENT_TIME, time, into)?;
    write_instance(name, into)?;
    write_oid_backwards(GLOBAL_FORM, &object.class, into)?;
    Ok(())
}

/// Appends the GetResult of an object, granted at the moment that `time` tells as GeneralizedTime, the last octet
/// first.
fn write_result(
    alloc: Global,
    schema: &Set,
    name: &[Rdn],
    object: &Object,
    time: &[u8],
    into: &mut Vec<u8>,
) -> Result<(), AllocError>
    ensures written { OnOk result (into.new.items
        ≡ into.old.items ++ reverse (get_one schema.now name.now object.now time.now)) }
    ensures begun { Extends into.old.items into.new.items }
{
    let start = into.as_slice().len();
    write_result_contents(alloc, schema, name, object, time, into)?;
    let size = into.as_slice().len() - start;
    write_header_backwards(true, Tag::SEQUENCE, size, into)
}

/// The GetResult of an object, granted at the moment that `time` tells as GeneralizedTime.
pub fn get_one(
    alloc: Global,
    schema: &Set,
    name: &[Rdn],
    object: &Object,
    time: &[u8],
) -> Result<Bytes, AllocError>
    ensures { IfOk result (λ octets. octets ≡ get_one schema.now name.now object.now time.now) }
{
    let mut items = Vec::new(alloc);
    write_result(alloc, schema, name, object, time, &mut items)?;
    reverse_from(0, &mut items);
    Ok(Bytes { items })
}
