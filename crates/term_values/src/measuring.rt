//! How many octets a value of a syntax takes in its one form: X.690, sections 8, 10 and 11.

ghost use Rattle.std.specs.Prelude.{◌≡◌, ◌++◌, length, None, true, false};
ghost use Rattle.term_values.specs.Components.{is_default, slot_octets};
ghost use Rattle.term_values.specs.Lengths.{octet_count};
ghost use Rattle.term_values.specs.Der.{encoded};
ghost use Rattle.term_values.specs.Rearranged.{joined, rising};
ghost use Rattle.term_values.specs.TreeTags.{due};
ghost use Rattle.term_values.specs.UniversalTags.{text_tag};
ghost use Rattle.term_values.specs.ValueContents.{of_parts, of_members, of_pick, member_encodings};
ghost use Rattle.term_values.specs.Written.{der_as, der, part_encodings, pick_encoding};

use crate::leaf_lengths::{
    bits_value, identifier_value, null_value, octets_value, plus, raw_length, text_value,
    time_value, truth_value, whole_value, with_header,
};
use crate::syntax::{Part, Parts, Syntax, SyntaxForm};
use crate::tag::Tag;
use crate::value::{Slot, Slots, Value, ValueForm, Values};

/// The tag of a value: its own, or the implicit one in its place.
fn due(tag: Option<Tag>, own: Tag) -> Tag
    ensures { result ≡ due tag own }
{
    match tag {
        None => own,
        Some(tag) => tag,
    }
}

/// How many octets a value takes under its tag, or under an implicit one in its place.
#[cycle(measuring)]
fn measure_as(tag: Option<Tag>, syntax: &Syntax, value: &Value) -> u64
    ensures { result ≡ octet_count (der_as tag syntax.now value.now) }
{
    match &syntax.form {
        SyntaxForm::Bool => truth_value(due(tag, Tag::BOOLEAN), value),
        SyntaxForm::Int(_, _) => whole_value(due(tag, Tag::INTEGER), value),
        SyntaxForm::Enumerated(_) => whole_value(due(tag, Tag::ENUMERATED), value),
        SyntaxForm::Bits(_, _) => bits_value(due(tag, Tag::BIT_STRING), value),
        SyntaxForm::Octets(_) => octets_value(due(tag, Tag::OCTET_STRING), value),
        SyntaxForm::Null => null_value(due(tag, Tag::NULL)),
        SyntaxForm::Oid => identifier_value(due(tag, Tag::OBJECT_IDENTIFIER), value),
        SyntaxForm::Text(charset, _) => text_value(due(tag, Tag::text(*charset)), value),
        SyntaxForm::Time => time_value(due(tag, Tag::GENERALIZED_TIME), value),
        SyntaxForm::Seq(parts) => measure_sequence(due(tag, Tag::SEQUENCE), parts, value),
        SyntaxForm::Unordered(parts) => measure_set(due(tag, Tag::SET), parts, value),
        SyntaxForm::ListOf(member, _) => measure_list(due(tag, Tag::SEQUENCE), member, value),
        SyntaxForm::SetOf(member, _) => measure_list(due(tag, Tag::SET), member, value),
        SyntaxForm::Choice(parts) => measure_choice(parts, value),
        SyntaxForm::Tagged(own, explicit, inner) => {
            if *explicit {
                measure_tagged(due(tag, *own), inner, value)
            } else {
                measure_as(Some(due(tag, *own)), inner, value)
            }
        }
        SyntaxForm::Any | SyntaxForm::Filter => raw_length(value),
    }
}

#[cycle(measuring)]
fn measure_tagged(tag: Tag, inner: &Syntax, value: &Value) -> u64
    ensures { result ≡ octet_count (encoded true tag (der_as None inner.now value.now)) }
{
    let contents = measure_as(None, inner, value);
    with_header(true, tag, contents)
}

#[cycle(measuring)]
fn measure_sequence(tag: Tag, parts: &Parts, value: &Value) -> u64
    ensures { result ≡ octet_count (encoded true tag (joined (of_parts (part_encodings parts.now) value.now))) }
{
    let contents = measure_components(parts, value);
    with_header(true, tag, contents)
}

/// A SET has the components of a SEQUENCE in another order.
#[cycle(measuring)]
fn measure_set(tag: Tag, parts: &Parts, value: &Value) -> u64
    ensures { result
        ≡ octet_count (encoded true tag (joined (rising (of_parts (part_encodings parts.now) value.now)))) }
{
    let contents = measure_components(parts, value);
    with_header(true, tag, contents)
}

#[cycle(measuring)]
fn measure_components(parts: &Parts, value: &Value) -> u64
    ensures { result ≡ octet_count (joined (of_parts (part_encodings parts.now) value.now)) }
{
    match &value.form {
        ValueForm::Parts(slots) => measure_parts(parts, slots),
        _ => 0,
    }
}

/// The component equals its default.
fn is_default(part: &Part, value: &Value) -> bool
    ensures { result ≡ is_default part.now.default value.now }
{
    match &part.default {
        None => false,
        Some(default) => value.is_same(default),
    }
}

#[cycle(measuring)]
fn measure_slot(part: &Part, slot: &Slot) -> u64
    ensures { result ≡ octet_count (slot_octets part.now.default (der_as None part.now.syntax) slot.now) }
{
    match slot {
        Slot::Present(value) => {
            if is_default(part, value) {
                return 0;
            }
            measure_as(None, &part.syntax, value)
        }
        Slot::Absent => 0,
    }
}

#[cycle(measuring)]
fn measure_parts(parts: &Parts, slots: &Slots) -> u64
    ensures { result ≡ octet_count (joined (part_encodings parts.now slots.now)) }
{
    let items = parts.items.as_slice();
    let present = slots.items.as_slice();
    let count = items.len().min(present.len());
    let mut total = 0;
    for i in (0..count).rev() {
        total = plus(measure_slot(&items[i], &present[i]), total);
    }
    total
}

#[cycle(measuring)]
fn measure_list(tag: Tag, member: &Syntax, value: &Value) -> u64
    ensures { result ≡ octet_count (encoded true tag (joined (of_members (der_as None member.now) value.now))) }
{
    let contents = measure_members(member, value);
    with_header(true, tag, contents)
}

#[cycle(measuring)]
fn measure_members(member: &Syntax, value: &Value) -> u64
    ensures { result ≡ octet_count (joined (of_members (der_as None member.now) value.now)) }
{
    match &value.form {
        ValueForm::Many(values) => measure_values(member, values),
        _ => 0,
    }
}

#[cycle(measuring)]
fn measure_values(member: &Syntax, values: &Values) -> u64
    ensures { result ≡ octet_count (joined (member_encodings (der_as None member.now) values.now)) }
{
    let items = values.items.as_slice();
    let mut total = 0;
    for i in (0..items.len()).rev() {
        total = plus(measure_as(None, member, &items[i]), total);
    }
    total
}

#[cycle(measuring)]
fn measure_choice(parts: &Parts, value: &Value) -> u64
    ensures { result ≡ octet_count (of_pick (pick_encoding parts.now) value.now) }
{
    match &value.form {
        ValueForm::Pick(index, picked) => measure_pick(parts, *index, picked),
        _ => 0,
    }
}

#[cycle(measuring)]
#[tactic(auto, using(crate::proofs::ComponentLaws::pick_at))]
fn measure_pick(parts: &Parts, index: u32, value: &Value) -> u64
    ensures { result ≡ octet_count (pick_encoding parts.now index value.now) }
{
    let items = parts.items.as_slice();
    let place = index as usize;
    if place < items.len() {
        let part = &items[place];
        return measure_as(None, &part.syntax, value);
    }
    0
}

/// How many octets the value takes in its one form, or 2^64 - 1 where it takes more. Takes no memory, and time linear
/// in the number of values inside the value. X.690, sections 8, 10 and 11.
pub fn der_len(syntax: &Syntax, value: &Value) -> u64
    ensures { result ≡ octet_count (der syntax.now value.now) }
{
    measure_as(None, syntax, value)
}
