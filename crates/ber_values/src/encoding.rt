//! Writes values in their one form: X.690, sections 8, 10 and 11. The contents stand there, the last octet first, when
//! their length is written, so that no part of a value is measured first.
#![tactic(auto, using(ber_tree::proofs::Extending::extending))]

ghost use Rattle.std.specs.Prelude.{◌≡◌, ◌++◌, ◌≤◌, IfOk, OnOk, OnErr, reverse, None, true, false};
ghost use Rattle.ber_tree.specs.Writing.{Extends};
ghost use Rattle.term_values.specs.Der.{encoded};
ghost use Rattle.term_values.specs.Rearranged.{joined, rising};
ghost use Rattle.term_values.specs.TreeTags.{due};
ghost use Rattle.term_values.specs.UniversalTags.{text_tag};
ghost use Rattle.term_values.specs.ValueContents.{of_parts, of_members, of_pick, member_encodings};
ghost use Rattle.term_values.specs.Written.{der_as, der, part_encodings, pick_encoding, unless_default};
ghost use Rattle.ber_values.specs.Components.{is_default, slot_octets, slot_encodings};

use crate::leaf_writing::{
    write_bits, write_identifier, write_octet_string, write_raw, write_text, write_time,
    write_truth, write_whole,
};
use ber_tree::tree_writing::{reverse_from, write_backwards, write_header_backwards};
use std::alloc::{AllocError, Global};
use term_values::{
    Bytes, Part, Parts, Slot, Slots, Syntax, SyntaxForm, Tag, Value, ValueForm, Values,
};

/// The tag of a value: its own, or the implicit one in its place.
fn due(tag: Option<Tag>, own: Tag) -> Tag
    ensures { result ≡ due tag own }
{
    match tag {
        None => own,
        Some(tag) => tag,
    }
}

/// Appends the octets of a value, the last one first.
#[cycle(encoding)]
fn write_as(
    alloc: Global,
    tag: Option<Tag>,
    syntax: &Syntax,
    value: &Value,
    into: &mut Vec<u8>,
) -> Result<(), AllocError>
    ensures written { OnOk result (into.new.items ≡ into.old.items ++ reverse (der_as tag syntax.now value.now)) }
    ensures begun { Extends into.old.items into.new.items }
{
    match &syntax.form {
        SyntaxForm::Bool => write_truth(due(tag, Tag::BOOLEAN), value, into),
        SyntaxForm::Int(_, _) => write_whole(due(tag, Tag::INTEGER), value, into),
        SyntaxForm::Enumerated(_) => write_whole(due(tag, Tag::ENUMERATED), value, into),
        SyntaxForm::Bits(_, _) => write_bits(due(tag, Tag::BIT_STRING), value, into),
        SyntaxForm::Octets(_) => write_octet_string(due(tag, Tag::OCTET_STRING), value, into),
        SyntaxForm::Null => write_header_backwards(false, due(tag, Tag::NULL), 0, into),
        SyntaxForm::Oid => write_identifier(due(tag, Tag::OBJECT_IDENTIFIER), value, into),
        SyntaxForm::Text(charset, _) => write_text(due(tag, Tag::text(*charset)), value, into),
        SyntaxForm::Time => write_time(due(tag, Tag::GENERALIZED_TIME), value, into),
        SyntaxForm::Seq(parts) => write_sequence(
            alloc,
            due(tag, Tag::SEQUENCE),
            parts,
            value,
            into,
        ),
        SyntaxForm::Unordered(parts) => write_set(alloc, due(tag, Tag::SET), parts, value, into),
        SyntaxForm::ListOf(member, _) => write_list(
            alloc,
            due(tag, Tag::SEQUENCE),
            member,
            value,
            into,
        ),
        SyntaxForm::SetOf(member, _) => write_list(alloc, due(tag, Tag::SET), member, value, into),
        SyntaxForm::Choice(parts) => write_choice(alloc, parts, value, into),
        SyntaxForm::Tagged(own, explicit, inner) => {
            if !*explicit {
                return write_as(alloc, Some(due(tag, *own)), inner, value, into);
            }
            let start = into.as_slice().len();
            write_as(alloc, None, inner, value, into)?;
            let size = into.as_slice().len() - start;
            write_header_backwards(true, due(tag, *own), size, into)
        }
        SyntaxForm::Any | SyntaxForm::Filter => write_raw(value, into),
    }
}

#[cycle(encoding)]
fn write_sequence(
    alloc: Global,
    tag: Tag,
    parts: &Parts,
    value: &Value,
    into: &mut Vec<u8>,
) -> Result<(), AllocError>
    ensures written { OnOk result
        (into.new.items
        ≡ into.old.items ++ reverse (encoded true tag (joined (of_parts (part_encodings parts.now) value.now)))) }
    ensures begun { Extends into.old.items into.new.items }
{
    let start = into.as_slice().len();
    write_components(alloc, parts, value, into)?;
    let size = into.as_slice().len() - start;
    write_header_backwards(true, tag, size, into)
}

#[cycle(encoding)]
fn write_components(
    alloc: Global,
    parts: &Parts,
    value: &Value,
    into: &mut Vec<u8>,
) -> Result<(), AllocError>
    ensures written { OnOk result
        (into.new.items ≡ into.old.items ++ reverse (joined (of_parts (part_encodings parts.now) value.now))) }
    ensures begun { Extends into.old.items into.new.items }
{
    match &value.form {
        ValueForm::Parts(slots) => write_parts(alloc, parts, slots, into),
        _ => Ok(()),
    }
}

/// The component equals its default.
fn is_default(part: &Part, value: &Value) -> bool
    ensures { result ≡ is_default part.now.default value.now }
{
    match &part.default {
        None => false,
        Some(default) => value.is_same(default),
    }
}

#[cycle(encoding)]
fn write_slot(alloc: Global, part: &Part, slot: &Slot, into: &mut Vec<u8>) -> Result<(), AllocError>
    ensures written { OnOk result
        (into.new.items
        ≡ into.old.items ++ reverse (slot_octets part.now.default (der_as None part.now.syntax) slot.now)) }
    ensures begun { Extends into.old.items into.new.items }
{
    match slot {
        Slot::Present(value) => {
            if is_default(part, value) {
                return Ok(());
            }
            write_as(alloc, None, &part.syntax, value, into)
        }
        Slot::Absent => Ok(()),
    }
}

#[cycle(encoding)]
fn write_parts(
    alloc: Global,
    parts: &Parts,
    slots: &Slots,
    into: &mut Vec<u8>,
) -> Result<(), AllocError>
    ensures written { OnOk result
        (into.new.items ≡ into.old.items ++ reverse (joined (part_encodings parts.now slots.now))) }
    ensures begun { Extends into.old.items into.new.items }
{
    let items = parts.items.as_slice();
    let present = slots.items.as_slice();
    let count = items.len().min(present.len());
    for i in (0..count).rev() {
        write_slot(alloc, &items[i], &present[i], into)?;
    }
    Ok(())
}

#[cycle(encoding)]
fn write_list(
    alloc: Global,
    tag: Tag,
    member: &Syntax,
    value: &Value,
    into: &mut Vec<u8>,
) -> Result<(), AllocError>
    ensures written { OnOk result
        (into.new.items
        ≡ into.old.items ++ reverse (encoded true tag (joined (of_members (der_as None member.now) value.now)))) }
    ensures begun { Extends into.old.items into.new.items }
{
    let start = into.as_slice().len();
    write_members(alloc, member, value, into)?;
    let size = into.as_slice().len() - start;
    write_header_backwards(true, tag, size, into)
}

#[cycle(encoding)]
fn write_members(
    alloc: Global,
    member: &Syntax,
    value: &Value,
    into: &mut Vec<u8>,
) -> Result<(), AllocError>
    ensures written { OnOk result
        (into.new.items ≡ into.old.items ++ reverse (joined (of_members (der_as None member.now) value.now))) }
    ensures begun { Extends into.old.items into.new.items }
{
    match &value.form {
        ValueForm::Many(values) => write_values(alloc, member, values, into),
        _ => Ok(()),
    }
}

#[cycle(encoding)]
fn write_values(
    alloc: Global,
    member: &Syntax,
    values: &Values,
    into: &mut Vec<u8>,
) -> Result<(), AllocError>
    ensures written { OnOk result
        (into.new.items
        ≡ into.old.items ++ reverse (joined (member_encodings (der_as None member.now) values.now))) }
    ensures begun { Extends into.old.items into.new.items }
{
    let items = values.items.as_slice();
    for i in (0..items.len()).rev() {
        write_as(alloc, None, member, &items[i], into)?;
    }
    Ok(())
}

#[cycle(encoding)]
fn write_choice(
    alloc: Global,
    parts: &Parts,
    value: &Value,
    into: &mut Vec<u8>,
) -> Result<(), AllocError>
    ensures written { OnOk result
        (into.new.items ≡ into.old.items ++ reverse (of_pick (pick_encoding parts.now) value.now)) }
    ensures begun { Extends into.old.items into.new.items }
{
    match &value.form {
        ValueForm::Pick(index, picked) => write_pick(alloc, parts, *index, picked, into),
        _ => Ok(()),
    }
}

#[cycle(encoding)]
#[tactic(auto, using(ber_tree::proofs::Extending::extending, crate::proofs::EncodingLaws::pick_at))]
fn write_pick(
    alloc: Global,
    parts: &Parts,
    index: u32,
    value: &Value,
    into: &mut Vec<u8>,
) -> Result<(), AllocError>
    ensures written { OnOk result
        (into.new.items ≡ into.old.items ++ reverse (pick_encoding parts.now index value.now)) }
    ensures begun { Extends into.old.items into.new.items }
{
    let items = parts.items.as_slice();
    let place = index as usize;
    if place < items.len() {
        let part = &items[place];
        return write_as(alloc, None, &part.syntax, value, into);
    }
    Ok(())
}

#[cycle(encoding)]
fn write_set(
    alloc: Global,
    tag: Tag,
    parts: &Parts,
    value: &Value,
    into: &mut Vec<u8>,
) -> Result<(), AllocError>
    ensures written { OnOk result
        (into.new.items
        ≡ into.old.items
        ++ reverse (encoded true tag (joined (rising (of_parts (part_encodings parts.now) value.now))))) }
    ensures begun { Extends into.old.items into.new.items }
{
    let start = into.as_slice().len();
    write_unordered(alloc, parts, value, into)?;
    let size = into.as_slice().len() - start;
    write_header_backwards(true, tag, size, into)
}

#[cycle(encoding)]
fn write_unordered(
    alloc: Global,
    parts: &Parts,
    value: &Value,
    into: &mut Vec<u8>,
) -> Result<(), AllocError>
    ensures written { OnOk result
        (into.new.items ≡ into.old.items ++ reverse (joined (rising (of_parts (part_encodings parts.now) value.now)))) }
    ensures begun { Extends into.old.items into.new.items }
{
    match &value.form {
        ValueForm::Parts(slots) => {
            let members = component_encodings(alloc, parts, slots)?;
            write_rising(members, into)
        }
        _ => Ok(()),
    }
}

/// The octets of each component that is written.
#[cycle(encoding)]
fn component_encodings(
    alloc: Global,
    parts: &Parts,
    slots: &Slots,
) -> Result<Vec<Bytes>, AllocError>
    ensures { IfOk result (λ found. found.items ≡ part_encodings parts.now slots.now) }
{
    let items = parts.items.as_slice();
    let present = slots.items.as_slice();
    let count = items.len().min(present.len());
    let mut found = Vec::new(alloc);
    for i in 0..count {
        push_encoding(alloc, &items[i], &present[i], &mut found)?;
    }
    Ok(found)
}

#[cycle(encoding)]
fn push_encoding(
    alloc: Global,
    part: &Part,
    slot: &Slot,
    found: &mut Vec<Bytes>,
) -> Result<(), AllocError>
    ensures { OnOk result
        (found.new.items
        ≡ found.old.items ++ slot_encodings part.now.default (der_as None part.now.syntax) slot.now) }
{
    match slot {
        Slot::Present(value) => {
            if is_default(part, value) {
                return Ok(());
            }
            let mut items = Vec::new(alloc);
            write_as(alloc, None, &part.syntax, value, &mut items)?;
            reverse_from(0, &mut items);
            found.push(Bytes { items })?;
            Ok(())
        }
        Slot::Absent => Ok(()),
    }
}

/// Appends encodings by their rising order, the last octet first: X.690, section 11.6.
pub fn write_rising(mut members: Vec<Bytes>, into: &mut Vec<u8>) -> Result<(), AllocError>
    ensures written { OnOk result (into.new.items ≡ into.old.items ++ reverse (joined (rising members.items))) }
    ensures begun { Extends into.old.items into.new.items }
{
    members.sort()?;
    for i in (0..members.len()).rev() {
        write_backwards(members[i].as_slice(), into)?;
    }
    Ok(())
}

/// Appends the octets of a value in their one form, the last octet first, where it is a part of what a caller writes
/// backwards.
pub fn encode_backwards(
    alloc: Global,
    syntax: &Syntax,
    value: &Value,
    into: &mut Vec<u8>,
) -> Result<(), AllocError>
    ensures written { OnOk result (into.new.items ≡ into.old.items ++ reverse (der syntax.now value.now)) }
    ensures begun { Extends into.old.items into.new.items }
{
    write_as(alloc, None, syntax, value, into)
}

/// Appends the octets of a value in their one form. The cost is linear in what is appended, but that the components of
/// a SET are copied once for each SET round them, to be sorted. The only error is want of memory, which leaves `into`
/// as it was. X.690, sections 8, 10 and 11.
pub fn encode_into(
    alloc: Global,
    syntax: &Syntax,
    value: &Value,
    into: &mut Vec<u8>,
) -> Result<(), AllocError>
    ensures written { OnOk result (into.new.items ≡ into.old.items ++ der syntax.now value.now) }
    ensures kept { OnErr result (into.new.items ≡ into.old.items) }
{
    let start = into.as_slice().len();
    match write_as(alloc, None, syntax, value, into) {
        Ok(()) => {
            reverse_from(start, into);
            Ok(())
        }
        Err(fault) => {
            into.truncate(start);
            Err(fault)
        }
    }
}
