//! Attributes, and errors of attributes, as results list them: X.711, section 7.5, types Attribute, GetInfoStatus and
//! SetInfoStatus.
#![tactic(auto, using(ber_tree::proofs::Extending::extending))]

ghost use Rattle.std.specs.Prelude.{◌≡◌, ◌++◌, false, true, IfOk, OnOk, map, reverse};
ghost use Rattle.ber_tree.specs.Writing.{Extends};
ghost use Rattle.term_model.specs.ResultValues.{get_info_value, held_value, id_value, set_info_value};
ghost use Rattle.term_values.specs.CmipTypes.{attribute, attribute_id, identifier};
ghost use Rattle.term_values.specs.Der.{encoded};
ghost use Rattle.term_values.specs.Octets.{integer_contents};
ghost use Rattle.term_values.specs.Oid.{oid_contents};
ghost use Rattle.term_values.specs.Rearranged.{joined, rising};
ghost use Rattle.term_values.specs.ResultSyntaxes.{get_error, set_error, outcome};
ghost use Rattle.term_values.specs.Tag.{context, universal};
ghost use Rattle.term_values.specs.Written.{der};

use crate::contents::close;
use crate::identifiers::{FormTags, write_id};
use ber_tree::tree_writing::{reverse_from, write_backwards, write_header_backwards};
use ber_tree::value_writing::{write_integer_backwards, write_oid_backwards};
use ber_values::encoding::write_rising;
use std::alloc::{AllocError, Global};
use term_model::{AttributeValue, GetInfoStatus, IdRef, SetInfoStatus};
use term_values::tag::CONTEXT;
use term_values::{Bytes, Oid, Tag};

/// The tag of globalForm in an ObjectClass and an AttributeId.
pub const GLOBAL_FORM: Tag = Tag {
    class: CONTEXT,
    number: 0,
};

/// The tag of an error in a GetInfoStatus and a SetInfoStatus.
const ERROR: Tag = Tag {
    class: CONTEXT,
    number: 0,
};

/// The tag of an attribute there.
const ATTRIBUTE: Tag = Tag {
    class: CONTEXT,
    number: 1,
};

/// The tag of a modification's operator in a SetInfoStatus.
const OPERATOR: Tag = Tag {
    class: CONTEXT,
    number: 2,
};

/// The tag of the list in a result.
const LIST: Tag = Tag {
    class: CONTEXT,
    number: 6,
};

/// Appends an attribute and a value in its written encoding, the last octet first, under this tag.
pub fn write_attribute(
    tag: Tag,
    id: &Oid,
    value: &[u8],
    into: &mut Vec<u8>,
) -> Result<(), AllocError>
    ensures written { OnOk result (into.new.items ≡ into.old.items
        ++ reverse (encoded true tag (encoded false (context 0) (oid_contents id.now) ++ value.now))) }
    ensures begun { Extends into.old.items into.new.items }
{
    let start = into.as_slice().len();
    write_backwards(value, into)?;
    write_oid_backwards(GLOBAL_FORM, id, into)?;
    let size = into.as_slice().len() - start;
    write_header_backwards(true, tag, size, into)
}

/// The octets of an attribute with its value, under this tag.
fn attribute_octets(alloc: Global, tag: Tag, held: &AttributeValue) -> Result<Bytes, AllocError>
    ensures { IfOk result (λ octets. octets
        ≡ encoded true tag (encoded false (context 0) (oid_contents held.now.id) ++ held.now.value)) }
{
    let mut items = Vec::new(alloc);
    write_attribute(tag, &held.id, held.value.as_slice(), &mut items)?;
    reverse_from(0, &mut items);
    Ok(Bytes { items })
}

/// Appends the number of an error and an identifier, the last octet first.
pub fn write_status(
    status: i64,
    tags: FormTags,
    id: &IdRef,
    into: &mut Vec<u8>,
) -> Result<(), AllocError>
    ensures written { OnOk result (into.new.items ≡ into.old.items
        ++ reverse (encoded false (universal 10) (integer_contents status)
        ++ der (identifier tags.global tags.local) (id_value id.now))) }
    ensures begun { Extends into.old.items into.new.items }
{
    write_id(tags, id, into)?;
    write_integer_backwards(Tag::ENUMERATED, status, into)
}

/// The octets of the error of an attribute in a Get.
fn get_error_octets(alloc: Global, status: i64, id: &IdRef) -> Result<Bytes, AllocError>
    ensures { IfOk result (λ octets. octets ≡ encoded true (context 0)
        (encoded false (universal 10) (integer_contents status) ++ der attribute_id (id_value id.now))) }
{
    let mut items = Vec::new(alloc);
    write_status(status, FormTags::CLASS_OR_ATTRIBUTE, id, &mut items)?;
    let size = items.as_slice().len();
    write_header_backwards(true, ERROR, size, &mut items)?;
    reverse_from(0, &mut items);
    Ok(Bytes { items })
}

/// Appends a modification's operator and its attribute, the last octet first.
fn write_modified(operator: i64, id: &IdRef, into: &mut Vec<u8>) -> Result<(), AllocError>
    ensures written { OnOk result (into.new.items ≡ into.old.items
        ++ reverse (encoded false (context 2) (integer_contents operator) ++ der attribute_id (id_value id.now))) }
    ensures begun { Extends into.old.items into.new.items }
{
    write_id(FormTags::CLASS_OR_ATTRIBUTE, id, into)?;
    write_integer_backwards(OPERATOR, operator, into)
}

/// Appends the number of an error, the operator and the attribute, the last octet first.
fn write_set_contents(
    status: i64,
    operator: i64,
    id: &IdRef,
    into: &mut Vec<u8>,
) -> Result<(), AllocError>
    ensures written { OnOk result (into.new.items ≡ into.old.items
        ++ reverse (encoded false (universal 10) (integer_contents status)
        ++ (encoded false (context 2) (integer_contents operator) ++ der attribute_id (id_value id.now)))) }
    ensures begun { Extends into.old.items into.new.items }
{
    write_modified(operator, id, into)?;
    write_integer_backwards(Tag::ENUMERATED, status, into)?;
    Ok(())
}

/// Appends the error of a modification in a Set, the last octet first.
fn write_set_error(
    status: i64,
    operator: i64,
    id: &IdRef,
    into: &mut Vec<u8>,
) -> Result<(), AllocError>
    ensures written { OnOk result (into.new.items ≡ into.old.items ++ reverse (encoded true (context 0)
        (encoded false (universal 10) (integer_contents status)
        ++ (encoded false (context 2) (integer_contents operator) ++ der attribute_id (id_value id.now))))) }
    ensures begun { Extends into.old.items into.new.items }
{
    let start = into.as_slice().len();
    write_set_contents(status, operator, id, into)?;
    close(ERROR, start, into)?;
    Ok(())
}

/// The octets of the error of a modification in a Set.
fn set_error_octets(
    alloc: Global,
    status: i64,
    operator: i64,
    id: &IdRef,
) -> Result<Bytes, AllocError>
    ensures { IfOk result (λ octets. octets ≡ encoded true (context 0)
        (encoded false (universal 10) (integer_contents status)
        ++ (encoded false (context 2) (integer_contents operator) ++ der attribute_id (id_value id.now)))) }
{
    let mut items = Vec::new(alloc);
    write_set_error(status, operator, id, &mut items)?;
    reverse_from(0, &mut items);
    Ok(Bytes { items })
}

/// The octets of a GetInfoStatus.
fn get_info_octets(alloc: Global, status: &GetInfoStatus) -> Result<Bytes, AllocError>
    ensures { IfOk result (λ octets. octets ≡ der (outcome get_error) (get_info_value status.now)) }
{
    match status {
        GetInfoStatus::Error { status, id } => get_error_octets(alloc, *status, id),
        GetInfoStatus::Attribute(held) => attribute_octets(alloc, ATTRIBUTE, held),
    }
}

/// The octets of a SetInfoStatus.
fn set_info_octets(alloc: Global, status: &SetInfoStatus) -> Result<Bytes, AllocError>
    ensures { IfOk result (λ octets. octets ≡ der (outcome set_error) (set_info_value status.now)) }
{
    match status {
        SetInfoStatus::Error {
            status,
            operator,
            id,
        } => set_error_octets(alloc, *status, *operator, id),
        SetInfoStatus::Attribute(held) => attribute_octets(alloc, ATTRIBUTE, held),
    }
}

/// The octets of each attribute.
fn attribute_members(alloc: Global, attributes: &[AttributeValue]) -> Result<Vec<Bytes>, AllocError>
    ensures { IfOk result (λ members. members.items ≡ map (λ held. der attribute (held_value held)) attributes.now) }
{
    let mut members = Vec::new(alloc);
    for held in attributes {
        members.push(attribute_octets(alloc, Tag::SEQUENCE, held)?)?;
    }
    Ok(members)
}

/// The octets of each GetInfoStatus.
fn get_members(alloc: Global, statuses: &[GetInfoStatus]) -> Result<Vec<Bytes>, AllocError>
    ensures { IfOk result (λ members. members.items
        ≡ map (λ status. der (outcome get_error) (get_info_value status)) statuses.now) }
{
    let mut members = Vec::new(alloc);
    for status in statuses {
        members.push(get_info_octets(alloc, status)?)?;
    }
    Ok(members)
}

/// The octets of each SetInfoStatus.
fn set_members(alloc: Global, statuses: &[SetInfoStatus]) -> Result<Vec<Bytes>, AllocError>
    ensures { IfOk result (λ members. members.items
        ≡ map (λ status. der (outcome set_error) (set_info_value status)) statuses.now) }
{
    let mut members = Vec::new(alloc);
    for status in statuses {
        members.push(set_info_octets(alloc, status)?)?;
    }
    Ok(members)
}

/// Appends a SET OF under a tag, the last octet first: its members by the rising order of their encodings.
fn write_set(tag: Tag, members: Vec<Bytes>, into: &mut Vec<u8>) -> Result<(), AllocError>
    ensures written { OnOk result
        (into.new.items ≡ into.old.items ++ reverse (encoded true tag (joined (rising members.items)))) }
    ensures begun { Extends into.old.items into.new.items }
{
    let start = into.as_slice().len();
    write_rising(members, into)?;
    let size = into.as_slice().len() - start;
    write_header_backwards(true, tag, size, into)
}

/// Appends the list of attributes of a result, the last octet first.
pub fn write_attributes(
    alloc: Global,
    attributes: &[AttributeValue],
    into: &mut Vec<u8>,
) -> Result<(), AllocError>
    ensures written { OnOk result (into.new.items ≡ into.old.items ++ reverse (encoded true (context 6)
        (joined (rising (map (λ held. der attribute (held_value held)) attributes.now))))) }
    ensures begun { Extends into.old.items into.new.items }
{
    let members = attribute_members(alloc, attributes)?;
    write_set(LIST, members, into)
}

/// Appends the list of a getListError, the last octet first.
pub fn write_get_info(
    alloc: Global,
    statuses: &[GetInfoStatus],
    into: &mut Vec<u8>,
) -> Result<(), AllocError>
    ensures written { OnOk result (into.new.items ≡ into.old.items ++ reverse (encoded true (context 6)
        (joined (rising (map (λ status. der (outcome get_error) (get_info_value status)) statuses.now))))) }
    ensures begun { Extends into.old.items into.new.items }
{
    let members = get_members(alloc, statuses)?;
    write_set(LIST, members, into)
}

/// Appends the list of a setListError, the last octet first.
pub fn write_set_info(
    alloc: Global,
    statuses: &[SetInfoStatus],
    into: &mut Vec<u8>,
) -> Result<(), AllocError>
    ensures written { OnOk result (into.new.items ≡ into.old.items ++ reverse (encoded true (context 6)
        (joined (rising (map (λ status. der (outcome set_error) (set_info_value status)) statuses.now))))) }
    ensures begun { Extends into.old.items into.new.items }
{
    let members = set_members(alloc, statuses)?;
    write_set(LIST, members, into)
}

/// Appends a SET OF AttributeId, the last octet first.
pub fn write_ids(alloc: Global, ids: &[Oid], into: &mut Vec<u8>) -> Result<(), AllocError>
    ensures written { OnOk result (into.new.items ≡ into.old.items ++ reverse (encoded true (universal 17)
        (joined (rising (map (λ id. encoded false (context 0) (oid_contents id)) ids.now))))) }
    ensures begun { Extends into.old.items into.new.items }
{
    let members = id_members(alloc, ids)?;
    write_set(Tag::SET, members, into)
}

/// The octets of each AttributeId.
fn id_members(alloc: Global, ids: &[Oid]) -> Result<Vec<Bytes>, AllocError>
    ensures { IfOk result (λ members. members.items
        ≡ map (λ id. encoded false (context 0) (oid_contents id)) ids.now) }
{
    let mut members = Vec::new(alloc);
    for id in ids {
        members.push(id_octets(alloc, id)?)?;
    }
    Ok(members)
}

/// The octets of an AttributeId in globalForm.
fn id_octets(alloc: Global, id: &Oid) -> Result<Bytes, AllocError>
    ensures { IfOk result (λ octets. octets ≡ encoded false (context 0) (oid_contents id.now)) }
{
    let mut items = Vec::new(alloc);
    write_oid_backwards(GLOBAL_FORM, id, &mut items)?;
    reverse_from(0, &mut items);
    Ok(Bytes { items })
}
