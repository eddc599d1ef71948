//! The identifier octets with which a value begins, as one number: X.690, section 8.1.2.

ghost use Rattle.std.specs.Prelude.{◌≡◌, ◌<◌, None, slice_index_or};
ghost use Rattle.term_values.specs.TreeTags.{due};
ghost use Rattle.value_match.specs.Marks.{first_octets, mark, mark_as, pick_mark, tag_place};

use crate::arc_order::{arc_place, five};
use term_values::{Bytes, Parts, Syntax, SyntaxForm, Tag, Value, ValueForm};

/// The tag of a value: its own, or the implicit one in its place.
fn due(tag: Option<Tag>, own: Tag) -> Tag
    ensures { result ≡ due tag own }
{
    match tag {
        None => own,
        Some(tag) => tag,
    }
}

/// A tag's number as it stands in the identifier octets.
fn tag_place(number: u32) -> u64
    ensures exact { result ≡ tag_place number }
    ensures within { result < 281474976710656 }
{
    if number < 31 {
        number as u64 * 1_099_511_627_776
    } else {
        31 * 1_099_511_627_776 + arc_place(number as u64)
    }
}

/// The identifier octets of a primitive or a constructed value.
fn mark(constructed: bool, tag: Tag) -> u64
    ensures { result ≡ mark constructed tag }
{
    let form = if constructed { 1 } else { 0 };
    ((tag.class % 4) as u64 * 2 + form) * 281_474_976_710_656 + tag_place(tag.number)
}

/// An octet, or 0 behind the last one.
fn octet_at(octets: &[u8], at: usize) -> u64
    ensures exact { result ≡ slice_index_or octets.now at 0 }
    ensures within { result < 256 }
{
    if at < octets.len() {
        octets[at] as u64
    } else {
        0
    }
}

/// The first six octets of an encoding.
fn first_octets(encoding: &Bytes) -> u64
    ensures { result ≡ first_octets encoding.now }
{
    let octets = encoding.as_slice();
    let first = octet_at(octets, 0);
    let second = octet_at(octets, 1);
    let third = octet_at(octets, 2);
    let fourth = octet_at(octets, 3);
    let fifth = octet_at(octets, 4);
    let sixth = octet_at(octets, 5);
    first / 32 * 281_474_976_710_656
        + first % 32 * 1_099_511_627_776
        + five(second, third, fourth, fifth, sixth)
}

/// The identifier octets of a value under its tag, or under an implicit one in its place. An ANY or a CMISFilter is an
/// encoding, of which the first octets are taken.
#[cycle(marking)]
pub fn mark_of(tag: Option<Tag>, syntax: &Syntax, value: &Value) -> u64
    ensures { result ≡ mark_as tag syntax.now value.now }
{
    match &syntax.form {
        SyntaxForm::Bool => mark(false, due(tag, Tag::BOOLEAN)),
        SyntaxForm::Int(_, _) => mark(false, due(tag, Tag::INTEGER)),
        SyntaxForm::Enumerated(_) => mark(false, due(tag, Tag::ENUMERATED)),
        SyntaxForm::Bits(_, _) => mark(false, due(tag, Tag::BIT_STRING)),
        SyntaxForm::Octets(_) => mark(false, due(tag, Tag::OCTET_STRING)),
        SyntaxForm::Null => mark(false, due(tag, Tag::NULL)),
        SyntaxForm::Oid => mark(false, due(tag, Tag::OBJECT_IDENTIFIER)),
        SyntaxForm::Text(charset, _) => mark(false, due(tag, Tag::text(*charset))),
        SyntaxForm::Time => mark(false, due(tag, Tag::GENERALIZED_TIME)),
        SyntaxForm::Seq(_) => mark(true, due(tag, Tag::SEQUENCE)),
        SyntaxForm::Unordered(_) => mark(true, due(tag, Tag::SET)),
        SyntaxForm::ListOf(_, _) => mark(true, due(tag, Tag::SEQUENCE)),
        SyntaxForm::SetOf(_, _) => mark(true, due(tag, Tag::SET)),
        SyntaxForm::Choice(parts) => match &value.form {
            ValueForm::Pick(index, picked) => pick_mark(parts, *index, picked),
            _ => 0,
        },
        SyntaxForm::Tagged(own, explicit, inner) => {
            if *explicit {
                mark(true, due(tag, *own))
            } else {
                mark_of(Some(due(tag, *own)), inner, value)
            }
        }
        SyntaxForm::Any => match &value.form {
            ValueForm::Raw(encoding) => first_octets(encoding),
            _ => 0,
        },
        SyntaxForm::Filter => match &value.form {
            ValueForm::Raw(encoding) => first_octets(encoding),
            _ => 0,
        },
    }
}

/// The identifier octets of a value of the alternative with this index.
#[cycle(marking)]
#[tactic(auto, using(crate::proofs::KeyLaws::mark_at))]
fn pick_mark(parts: &Parts, index: u32, value: &Value) -> u64
    ensures { result ≡ pick_mark parts.now index value.now }
{
    let items = parts.items.as_slice();
    let place = index as usize;
    if place < items.len() {
        let part = &items[place];
        return mark_of(None, &part.syntax, value);
    }
    0
}
