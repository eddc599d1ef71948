//! The value of a syntax that a text denotes (X.680, sections 18 to 46; X.208, sections 20 to 28).

ghost use Rattle.std.specs.Prelude.{◌≡◌, ◌<◌, true, not, zero, [], IfOk, IfSome, IfNone, None, Some, Option, length};
ghost use Rattle.std.specs.Prelude.{drop, get_or, set as list_set, option_map, option_and_then};
ghost use Rattle.ber_values.specs.Left.{slot_left_out};
ghost use Rattle.term_values.specs.Decoding.{sized_members, rising_by};
ghost use Rattle.term_values.specs.Typed.{TypedValue};
ghost use Rattle.term_values.specs.Typed.TypedValue.{Parts as PartsValue};
ghost use Rattle.term_values.specs.Written.{der};
ghost use Rattle.asn1_values_syntax.specs.declared.value.ValuePart.{ValuePart};
ghost use Rattle.asn1_values.specs.Denoted.{denoted, members_said, taken_out, chosen_by, picked_said};
ghost use Rattle.asn1_values.specs.Denoted.{components_said, reading_of, unordered_said};
ghost use Rattle.asn1_leaf_values.specs.Arcs.{NamedArcs};
ghost use Rattle.asn1_leaf_values.specs.FirstNames.{arcs_named};
ghost use Rattle.asn1_leaf_values.specs.Literals.{same_name};
ghost use Rattle.asn1_values.specs.Steps.{next_comes, left_of, no_texts, next_slot};
ghost use Rattle.asn1_leaf_values.specs.TextValues.{TextValue, said, said_value, parts_of, parts_said};

use asn1_leaf_values::any_values::read_any;
use asn1_leaf_values::arcs::FirstNames;
use asn1_leaf_values::leaf_values::{
    part_name, part_value, parts_of, read_bit_string, read_enumerated, read_identifier, read_null,
    read_octet_string, read_text, read_time, read_truth, read_whole,
};
use asn1_leaf_values::numbers::same_name;
use asn1_values_syntax::value::{NamedValue, ValuePart, ValueText};
use ber_values::member_order::rising_members;
use std::alloc::{AllocError, Global};
use std::boxed::Box;
use term_values::{Part, Parts, Ranges, Slot, Slots, Syntax, SyntaxForm, Value, ValueForm, Values};

/// Which CMISFilter a text denotes.
pub trait FilterReading {
    ghost reading: { NamedArcs → TextValue → Option TypedValue };

    /// The CMISFilter that the text denotes.
    fn read_filter(
        alloc: Global,
        names: &FirstNames,
        text: &ValueText,
    ) -> Result<Option<Value>, AllocError>
        ensures { IfOk result (λ found. reading (arcs_named names.now) (said text.now) ≡ found) };
}

/// The members, where there may be so many.
#[tactic(auto, using(ber_values::proofs::DecodingLaws::count_listed))]
fn sized(sizes: &Ranges, values: Values) -> Option<Value>
    ensures { result ≡ sized_members sizes.now values }
{
    if sizes.allow_size(values.items.as_slice().len()) {
        Some(Value {
            form: ValueForm::Many(values),
        })
    } else {
        None
    }
}

/// The value of the syntax that the text denotes.
#[cycle(denoting)]
pub fn denote<F: FilterReading>(
    alloc: Global,
    names: &FirstNames,
    syntax: &Syntax,
    text: &ValueText,
) -> Result<Option<Value>, AllocError>
    ensures { IfOk result (λ found. denoted (reading_of F.reading (arcs_named names.now)) syntax.now (said text.now) ≡ found) }
{
    match &syntax.form {
        SyntaxForm::Bool => Ok(read_truth(text)),
        SyntaxForm::Int(names, ranges) => Ok(read_whole(names, ranges, text)),
        SyntaxForm::Enumerated(names) => Ok(read_enumerated(names, text)),
        SyntaxForm::Bits(names, sizes) => read_bit_string(alloc, names, sizes, text),
        SyntaxForm::Octets(sizes) => read_octet_string(alloc, sizes, text),
        SyntaxForm::Null => Ok(read_null(text)),
        SyntaxForm::Oid => read_identifier(alloc, names, text),
        SyntaxForm::Text(charset, sizes) => read_text(alloc, *charset, sizes, text),
        SyntaxForm::Time => read_time(alloc, text),
        SyntaxForm::Seq(parts) => denote_sequence::<F>(alloc, names, parts, text),
        SyntaxForm::Unordered(parts) => denote_set::<F>(alloc, names, parts, text),
        SyntaxForm::ListOf(member, sizes) => denote_list::<F>(alloc, names, member, sizes, text),
        SyntaxForm::SetOf(member, sizes) => denote_set_of::<F>(alloc, names, member, sizes, text),
        SyntaxForm::Choice(parts) => denote_choice::<F>(alloc, names, parts, text),
        SyntaxForm::Tagged(_, _, inner) => denote::<F>(alloc, names, inner, text),
        SyntaxForm::Any => read_any(alloc, text),
        SyntaxForm::Filter => F::read_filter(alloc, names, text),
    }
}

#[cycle(denoting)]
fn denote_sequence<F: FilterReading>(
    alloc: Global,
    names: &FirstNames,
    parts: &Parts,
    text: &ValueText,
) -> Result<Option<Value>, AllocError>
    ensures { IfOk result (λ found.
        option_map PartsValue (option_and_then (components_said (reading_of F.reading (arcs_named names.now)) parts.now) (parts_of (said text.now)))
        ≡ found) }
{
    let Some(texts) = parts_of(text) else {
        return Ok(None);
    };
    match denote_components::<F>(alloc, names, parts, texts)? {
        None => Ok(None),
        Some(slots) => Ok(Some(Value {
            form: ValueForm::Parts(slots),
        })),
    }
}

#[cycle(denoting)]
fn denote_set<F: FilterReading>(
    alloc: Global,
    names: &FirstNames,
    parts: &Parts,
    text: &ValueText,
) -> Result<Option<Value>, AllocError>
    ensures { IfOk result (λ found.
        option_map PartsValue (option_and_then (unordered_said (reading_of F.reading (arcs_named names.now)) parts.now) (parts_of (said text.now)))
        ≡ found) }
{
    let Some(texts) = parts_of(text) else {
        return Ok(None);
    };
    match denote_unordered::<F>(alloc, names, parts, texts)? {
        None => Ok(None),
        Some(slots) => Ok(Some(Value {
            form: ValueForm::Parts(slots),
        })),
    }
}

#[cycle(denoting)]
fn denote_list<F: FilterReading>(
    alloc: Global,
    names: &FirstNames,
    member: &Syntax,
    sizes: &Ranges,
    text: &ValueText,
) -> Result<Option<Value>, AllocError>
    ensures { IfOk result (λ found.
        option_and_then (sized_members sizes.now)
        (option_and_then (members_said (denoted (reading_of F.reading (arcs_named names.now)) member.now)) (parts_of (said text.now))) ≡ found) }
{
    let Some(texts) = parts_of(text) else {
        return Ok(None);
    };
    match denote_members::<F>(alloc, names, member, texts)? {
        None => Ok(None),
        Some(values) => Ok(sized(sizes, values)),
    }
}

#[cycle(denoting)]
fn denote_set_of<F: FilterReading>(
    alloc: Global,
    names: &FirstNames,
    member: &Syntax,
    sizes: &Ranges,
    text: &ValueText,
) -> Result<Option<Value>, AllocError>
    ensures { IfOk result (λ found.
        option_and_then (sized_members sizes.now) (option_map (rising_by (der member.now))
        (option_and_then (members_said (denoted (reading_of F.reading (arcs_named names.now)) member.now)) (parts_of (said text.now)))) ≡ found) }
{
    let Some(texts) = parts_of(text) else {
        return Ok(None);
    };
    match denote_members::<F>(alloc, names, member, texts)? {
        None => Ok(None),
        Some(values) => Ok(sized(sizes, rising_members(alloc, member, values)?)),
    }
}

/// The alternative that the text names.
#[cycle(denoting)]
fn denote_choice<F: FilterReading>(
    alloc: Global,
    names: &FirstNames,
    parts: &Parts,
    text: &ValueText,
) -> Result<Option<Value>, AllocError>
    ensures { IfOk result (λ found. chosen_by (picked_said (reading_of F.reading (arcs_named names.now)) zero parts.now) (said text.now) ≡ found) }
{
    let ValueText::Named(NamedValue::Choice { name, value }) = text else {
        return Ok(None);
    };
    denote_alternative::<F>(alloc, names, parts, name.text.as_slice(), value)
}

/// The first alternative of that name.
#[cycle(denoting)]
fn denote_alternative<F: FilterReading>(
    alloc: Global,
    names: &FirstNames,
    parts: &Parts,
    name: &[u8],
    text: &ValueText,
) -> Result<Option<Value>, AllocError>
    ensures { IfOk result (λ found. picked_said (reading_of F.reading (arcs_named names.now)) zero parts.now name.now (said text.now) ≡ found) }
{
    let items = parts.items.as_slice();
    for k in 0..items.len() {
        if same_name(items[k].name.as_slice(), name) {
            return match denote::<F>(alloc, names, &items[k].syntax, text)? {
                None => Ok(None),
                Some(value) => Ok(Some(Value {
                    form: ValueForm::Pick(k as u32, Box::new(alloc, value)?),
                })),
            };
        }
    }
    Ok(None)
}

/// The members, as they come.
#[cycle(denoting)]
fn denote_members<F: FilterReading>(
    alloc: Global,
    names: &FirstNames,
    member: &Syntax,
    texts: &[ValuePart],
) -> Result<Option<Values>, AllocError>
    ensures { IfOk result (λ found. members_said (denoted (reading_of F.reading (arcs_named names.now)) member.now) (parts_said texts.now) ≡ found) }
{
    let mut items = Vec::new(alloc);
    for part in texts {
        if !part_name(part).is_empty() {
            return Ok(None);
        }
        match denote::<F>(alloc, names, member, part_value(part))? {
            None => return Ok(None),
            Some(value) => items.push(value)?,
        }
    }
    Ok(Some(Values { items }))
}

/// Whether the text at a place is that of the component.
fn comes(part: &Part, texts: &[ValuePart], next: usize) -> bool
    ensures comes { result ≡ next_comes part.now.name (parts_said (drop next texts.now)) }
    ensures within { result ≡ true → next < length texts.now }
{
    if next >= texts.len() {
        return false;
    }
    same_name(part.name.as_slice(), part_name(&texts[next]))
}

/// What a component that is left out holds.
fn left_out(alloc: Global, part: &Part) -> Result<Option<Slot>, AllocError>
    ensures { IfOk result (λ found. found ≡ slot_left_out part.now.optional part.now.default) }
{
    if let Some(default) = &part.default {
        return Ok(Some(Slot::Present(default.copy(alloc)?)));
    }
    if part.optional {
        return Ok(Some(Slot::Absent));
    }
    Ok(None)
}

/// The components that the texts in the order of the type denote.
#[cycle(denoting)]
fn denote_components<F: FilterReading>(
    alloc: Global,
    names: &FirstNames,
    parts: &Parts,
    texts: &[ValuePart],
) -> Result<Option<Slots>, AllocError>
    ensures { IfOk result (λ found. components_said (reading_of F.reading (arcs_named names.now)) parts.now (parts_said texts.now) ≡ found) }
{
    let items = parts.items.as_slice();
    let mut slots = Vec::new(alloc);
    let mut next = 0;
    for part in items {
        if comes(part, texts, next) {
            match denote::<F>(alloc, names, &part.syntax, part_value(&texts[next]))? {
                None => return Ok(None),
                Some(value) => slots.push(Slot::Present(value))?,
            }
            next += 1;
        } else {
            match left_out(alloc, part)? {
                None => return Ok(None),
                Some(slot) => slots.push(slot)?,
            }
        }
    }
    if next < texts.len() {
        return Ok(None);
    }
    Ok(Some(Slots { items: slots }))
}

/// The place of the first text of the name that isn't taken.
fn find_text(name: &[u8], texts: &[ValuePart], taken: &[bool]) -> Option<usize>
    requires { length taken.now ≡ length texts.now }
    ensures within { IfSome result (λ k. k < length texts.now) }
    ensures found { IfSome result (λ k. (d : ValuePart) → taken_out name.now (left_of taken.now texts.now)
        ≡ Some (said_value (get_or texts.now k d), left_of (list_set taken.now k true) texts.now)) }
    ensures none { IfNone result (taken_out name.now (left_of taken.now texts.now) ≡ None) }
{
    for k in 0..texts.len() {
        let text = &texts[k];
        if !taken[k] && same_name(name, part_name(text)) {
            return Some(k);
        }
    }
    None
}

/// Whether some text isn't taken.
fn some_left(texts: &[ValuePart], taken: &[bool]) -> bool
    requires { length taken.now ≡ length texts.now }
    ensures { result ≡ not (no_texts (left_of taken.now texts.now)) }
{
    for k in 0..texts.len() {
        if !taken[k] {
            return true;
        }
    }
    false
}

/// What a component holds, by the texts that aren't taken.
#[cycle(denoting)]
fn denote_component<F: FilterReading>(
    alloc: Global,
    names: &FirstNames,
    part: &Part,
    texts: &[ValuePart],
    taken: &mut [bool],
) -> Result<Option<Slot>, AllocError>
    requires { length taken.old ≡ length texts.now }
    ensures len { length taken.new ≡ length taken.old }
    ensures found { IfOk result (λ found.
        next_slot (reading_of F.reading (arcs_named names.now)) part.now (left_of taken.old texts.now)
        ≡ option_map (λ slot. (slot, left_of taken.new texts.now)) found) }
{
    match find_text(part.name.as_slice(), texts, taken) {
        None => left_out(alloc, part),
        Some(k) => {
            taken[k] = true;
            match denote::<F>(alloc, names, &part.syntax, part_value(&texts[k]))? {
                None => Ok(None),
                Some(value) => Ok(Some(Slot::Present(value))),
            }
        }
    }
}

/// The components that the texts in any order denote.
#[cycle(denoting)]
fn denote_unordered<F: FilterReading>(
    alloc: Global,
    names: &FirstNames,
    parts: &Parts,
    texts: &[ValuePart],
) -> Result<Option<Slots>, AllocError>
    ensures { IfOk result (λ found. unordered_said (reading_of F.reading (arcs_named names.now)) parts.now (parts_said texts.now) ≡ found) }
{
    let items = parts.items.as_slice();
    let mut taken = vec![in alloc; false; texts.len()]?;
    let mut slots = Vec::new(alloc);
    for part in items {
        match denote_component::<F>(alloc, names, part, texts, &mut taken)? {
            None => return Ok(None),
            Some(slot) => slots.push(slot)?,
        }
    }
    if some_left(texts, &taken) {
        return Ok(None);
    }
    Ok(Some(Slots { items: slots }))
}
