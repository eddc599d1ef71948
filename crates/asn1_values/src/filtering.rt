//! The CMISFilter that a text denotes, by its CHOICE (X.711, section 7.5; docs/PROFILE.md, section 13).

ghost use Rattle.std.specs.Prelude.{◌≡◌, IfOk, Some, option_map};
ghost use Rattle.term_values.specs.CmipTypes.{filter_choice};
ghost use Rattle.term_values.specs.Typed.TypedValue.{Pick, Raw};
ghost use Rattle.term_values.specs.Written.{der};
ghost use Rattle.asn1_values.specs.Filters.{no_filter, item_said, alternative, rising_filters, where_unnamed};
ghost use Rattle.asn1_values.specs.Filters.{filter_said, filters_said, each_said};
ghost use Rattle.asn1_leaf_values.specs.FirstNames.{arcs_named};
ghost use Rattle.asn1_leaf_values.specs.TextValues.{said, said_name, said_value, parts_said};

use super::denoting::{FilterReading, denote};
use super::filter_syntaxes::{filter, filter_choice, filter_item};
use asn1_leaf_values::arcs::FirstNames;
use asn1_leaf_values::leaf_values::part_name;
use asn1_leaf_values::numbers::same_name;
use asn1_values_syntax::value::{BracesText, NamedValue, ValuePart, ValueText};
use ber_values::encode_into;
use ber_values::member_order::rising_members;
use std::alloc::{AllocError, Global};
use std::boxed::Box;
use term_values::{Bytes, Value, ValueForm, Values};

/// No text denotes a filter.
struct NoFilters;

impl FilterReading for NoFilters {
    ghost reading = { no_filter };

    fn read_filter(
        _alloc: Global,
        _names: &FirstNames,
        _text: &ValueText,
    ) -> Result<Option<Value>, AllocError> {
        Ok(None)
    }
}

/// A text denotes a filter by its CHOICE.
pub struct Filters;

impl FilterReading for Filters {
    ghost reading = { filter_said };

    fn read_filter(
        alloc: Global,
        names: &FirstNames,
        text: &ValueText,
    ) -> Result<Option<Value>, AllocError> {
        read_filter(alloc, names, text)
    }
}

/// The encoding of a value of the CHOICE.
fn encoded(alloc: Global, chosen: &Value) -> Result<Value, AllocError>
    ensures { IfOk result (λ value. value ≡ Raw (der filter_choice chosen.now)) }
{
    let choice = filter_choice(alloc)?;
    let mut items = Vec::new(alloc);
    encode_into(alloc, &choice, chosen, &mut items)?;
    Ok(Value {
        form: ValueForm::Raw(Bytes { items }),
    })
}

/// An alternative by its place.
fn picked(alloc: Global, place: u32, value: Option<Value>) -> Result<Option<Value>, AllocError>
    ensures { IfOk result (λ found. option_map (Pick place) value ≡ found) }
{
    match value {
        None => Ok(None),
        Some(value) => Ok(Some(Value {
            form: ValueForm::Pick(place, Box::new(alloc, value)?),
        })),
    }
}

/// Filters by rising encoding.
fn sorted(alloc: Global, values: Values) -> Result<Option<Value>, AllocError>
    ensures { IfOk result (λ found. found ≡ Some (rising_filters values)) }
{
    Ok(Some(Value {
        form: ValueForm::Many(rising_members(alloc, &filter(), values)?),
    }))
}

/// An item.
fn read_item(
    alloc: Global,
    names: &FirstNames,
    text: &ValueText,
) -> Result<Option<Value>, AllocError>
    ensures { IfOk result (λ found. item_said (arcs_named names.now) (said text.now) ≡ found) }
{
    let item = filter_item(alloc)?;
    denote::<NoFilters>(alloc, names, &item, text)
}

/// The filter that the text denotes.
#[cycle(filtering)]
pub fn read_filter(
    alloc: Global,
    names: &FirstNames,
    text: &ValueText,
) -> Result<Option<Value>, AllocError>
    ensures { IfOk result (λ found. filter_said (arcs_named names.now) (said text.now) ≡ found) }
{
    let ValueText::Named(NamedValue::Choice { name, value }) = text else {
        return Ok(None);
    };
    match read_alternative(alloc, names, name.text.as_slice(), value)? {
        None => Ok(None),
        Some(chosen) => Ok(Some(encoded(alloc, &chosen)?)),
    }
}

/// The alternative of that name.
#[cycle(filtering)]
fn read_alternative(
    alloc: Global,
    names: &FirstNames,
    name: &[u8],
    text: &ValueText,
) -> Result<Option<Value>, AllocError>
    ensures { IfOk result (λ found. alternative name.now (item_said (arcs_named names.now) (said text.now)) (filters_said (arcs_named names.now) (said text.now))
        (filter_said (arcs_named names.now) (said text.now)) ≡ found) }
{
    if same_name(name, b"item") {
        return picked(alloc, 0, read_item(alloc, names, text)?);
    }
    if same_name(name, b"and") {
        return picked(alloc, 1, read_set(alloc, names, text)?);
    }
    if same_name(name, b"or") {
        return picked(alloc, 2, read_set(alloc, names, text)?);
    }
    if same_name(name, b"not") {
        return picked(alloc, 3, read_filter(alloc, names, text)?);
    }
    Ok(None)
}

/// The filters of a set, by rising encoding.
#[cycle(filtering)]
fn read_set(
    alloc: Global,
    names: &FirstNames,
    text: &ValueText,
) -> Result<Option<Value>, AllocError>
    ensures { IfOk result (λ found. option_map rising_filters (filters_said (arcs_named names.now) (said text.now)) ≡ found) }
{
    let ValueText::Braces { content, .. } = text else {
        return Ok(None);
    };
    match content {
        BracesText::Nothing => sorted(
            alloc,
            Values {
                items: Vec::new(alloc),
            },
        ),
        BracesText::Parts(parts) => match read_each(alloc, names, parts.as_slice())? {
            None => Ok(None),
            Some(values) => sorted(alloc, values),
        },
        _ => Ok(None),
    }
}

/// The filter of a part without a name.
#[cycle(filtering)]
fn read_member(
    alloc: Global,
    names: &FirstNames,
    part: &ValuePart,
) -> Result<Option<Value>, AllocError>
    ensures { IfOk result (λ found.
        where_unnamed (said_name part.now) (filter_said (arcs_named names.now) (said_value part.now)) ≡ found) }
{
    if !part_name(part).is_empty() {
        return Ok(None);
    }
    match part {
        ValuePart::Named { value, .. } => read_filter(alloc, names, value),
        ValuePart::Unnamed(value) => read_filter(alloc, names, value),
    }
}

/// The filters of a set, as they come.
#[cycle(filtering)]
fn read_each(
    alloc: Global,
    names: &FirstNames,
    texts: &[ValuePart],
) -> Result<Option<Values>, AllocError>
    ensures { IfOk result (λ found. each_said (arcs_named names.now) (parts_said texts.now) ≡ found) }
{
    let mut items = Vec::new(alloc);
    for part in texts {
        match read_member(alloc, names, part)? {
            None => return Ok(None),
            Some(value) => items.push(value)?,
        }
    }
    Ok(Some(Values { items }))
}
