//! Values of types that hold no others (X.680, sections 18 to 24, 32, 41 and 46).

ghost use Rattle.std.specs.Prelude.{◌≡◌, [], IfOk, Option, option_map, option_and_then};
ghost use Rattle.asn1_leaf_values.specs.FirstNames.{arcs_named};
ghost use Rattle.asn1_leaf_values.specs.LeafTexts.{truth_said, null_said, number_of, whole_said, enumerated_said};
ghost use Rattle.asn1_leaf_values.specs.LeafTexts.{literal_bits, bit_of, bit_numbers, bits_named, bits_said};
ghost use Rattle.asn1_leaf_values.specs.LeafTexts.{bit_string, bit_string_said, octet_string_said};
ghost use Rattle.asn1_leaf_values.specs.LeafTexts.{identifier_said, string_said};
ghost use Rattle.asn1_leaf_values.specs.LeafTexts.{text_said, time_said};
ghost use Rattle.asn1_leaf_values.specs.TextValues.{said, said_name, said_value, parts_of, parts_said};

use super::arcs::{FirstNames, read_arcs};
use super::bits::{BitList, count_filled, pack, read_bits, set_bit};
use super::numbers::{named_number, read_number};
use super::strings::read_string;
use asn1_values_syntax::value::{BracesText, NamedValue, ValuePart, ValueText};
use std::alloc::{AllocError, Global};
use std::marker::Model;
use term_values::times::is_time;
use term_values::{Bytes, Charset, Names, Oid, Ranges, Value, ValueForm};
use token_grammar::token_tests::is_word_of;

/// Numbers of bits in their order.
#[derive(Drop)]
struct BitNumbers {
    items: Vec<u64>,
}

impl Model for BitNumbers {
    ghost use Rattle.std.specs.Prelude.{ℕ, List};

    ghost Value = { List ℕ };

    ghost view = { λ numbers. numbers.items.items };
}

/// The name of a part, empty where it has none.
pub fn part_name(part: &ValuePart) -> &[u8]
    ensures { result.now ≡ said_name part.now }
{
    match part {
        ValuePart::Named { name, .. } => name.text.as_slice(),
        ValuePart::Unnamed(_) => b"",
    }
}

/// The value of a part.
pub fn part_value(part: &ValuePart) -> &ValueText
    ensures { said result.now ≡ said_value part.now }
{
    match part {
        ValuePart::Named { value, .. } => value,
        ValuePart::Unnamed(value) => value,
    }
}

/// The parts that stand in braces; none where the text is no list of parts.
pub fn parts_of(text: &ValueText) -> Option<&[ValuePart]>
    ensures { option_map (λ parts. parts_said parts.now) result ≡ parts_of (said text.now) }
{
    match text {
        ValueText::Braces {
            content: BracesText::Nothing,
            ..
        } => Some(&[]),
        ValueText::Braces {
            content: BracesText::Parts(parts),
            ..
        } => Some(parts.as_slice()),
        _ => None,
    }
}

/// TRUE or FALSE.
pub fn read_truth(text: &ValueText) -> Option<Value>
    ensures { result ≡ truth_said (said text.now) }
{
    let ValueText::Literal(token) = text else {
        return None;
    };
    let holds = is_word_of(token, "TRUE");
    if holds || is_word_of(token, "FALSE") {
        Some(Value {
            form: ValueForm::Bool(holds),
        })
    } else {
        None
    }
}

/// NULL.
pub fn read_null(text: &ValueText) -> Option<Value>
    ensures { result ≡ null_said (said text.now) }
{
    let ValueText::Literal(token) = text else {
        return None;
    };
    if is_word_of(token, "NULL") {
        Some(Value {
            form: ValueForm::Null,
        })
    } else {
        None
    }
}

/// A number with its sign, or the name of one.
fn number_of(names: &Names, text: &ValueText) -> Option<i64>
    ensures { result ≡ number_of names.now (said text.now) }
{
    match text {
        ValueText::Number(number) => {
            read_number(number.minus.is_some(), number.number.text.as_slice())
        }
        ValueText::Named(NamedValue::Name(name)) => named_number(names, name.text.as_slice()),
        _ => None,
    }
}

/// A value of INTEGER.
pub fn read_whole(names: &Names, ranges: &Ranges, text: &ValueText) -> Option<Value>
    ensures { result ≡ whole_said names.now ranges.now (said text.now) }
{
    match number_of(names, text) {
        Some(number) if ranges.allow(number) => Some(Value::integer(number)),
        _ => None,
    }
}

/// A value of ENUMERATED, by its name alone.
pub fn read_enumerated(names: &Names, text: &ValueText) -> Option<Value>
    ensures { result ≡ enumerated_said names.now (said text.now) }
{
    match text {
        ValueText::Named(NamedValue::Name(name)) => {
            match named_number(names, name.text.as_slice()) {
                None => None,
                Some(number) => Some(Value::integer(number)),
            }
        }
        _ => None,
    }
}

/// The number of the bit that a part without a name says by its name.
fn bit_number(names: &Names, part: &ValuePart) -> Option<u64>
    ensures { result ≡ bit_of names.now (said_name part.now) (said_value part.now) }
{
    if !part_name(part).is_empty() {
        return None;
    }
    match part_value(part) {
        ValueText::Named(NamedValue::Name(name)) => {
            match named_number(names, name.text.as_slice()) {
                Some(number) if number >= 0 => Some(number as u64),
                _ => None,
            }
        }
        _ => None,
    }
}

/// The numbers of the bits that are named.
fn bit_numbers(
    alloc: Global,
    names: &Names,
    parts: &[ValuePart],
) -> Result<Option<BitNumbers>, AllocError>
    ensures { IfOk result (λ found. bit_numbers names.now (parts_said parts.now) ≡ found) }
{
    let mut items = Vec::new(alloc);
    for part in parts {
        match bit_number(names, part) {
            None => return Ok(None),
            Some(number) => items.push(number)?,
        }
    }
    Ok(Some(BitNumbers { items }))
}

/// The bits of these numbers are 1, all others 0, and the last one is 1.
fn bits_named(alloc: Global, numbers: &[u64]) -> Result<BitList, AllocError>
    ensures { IfOk result (λ bits. bits_named numbers.now ≡ bits) }
{
    let mut items = Vec::new(alloc);
    for k in (0..numbers.len()).rev() {
        set_bit(&mut items, numbers[k] as usize)?;
    }
    Ok(BitList { items })
}

/// The bits that a text says.
fn bits_said(alloc: Global, names: &Names, text: &ValueText) -> Result<Option<BitList>, AllocError>
    ensures { IfOk result (λ found. bits_said names.now (said text.now) ≡ found) }
{
    if let ValueText::Literal(token) = text {
        return read_bits(alloc, token);
    }
    let Some(parts) = parts_of(text) else {
        return Ok(None);
    };
    match bit_numbers(alloc, names, parts)? {
        None => Ok(None),
        Some(numbers) => Ok(Some(bits_named(alloc, numbers.items.as_slice())?)),
    }
}

/// A value of BIT STRING.
pub fn read_bit_string(
    alloc: Global,
    names: &Names,
    sizes: &Ranges,
    text: &ValueText,
) -> Result<Option<Value>, AllocError>
    ensures { IfOk result (λ found. bit_string_said names.now sizes.now (said text.now) ≡ found) }
{
    let Some(bits) = bits_said(alloc, names, text)? else {
        return Ok(None);
    };
    let octets = pack(alloc, bits.items.as_slice())?;
    let unused = count_filled(bits.items.as_slice());
    if !sizes.allow_bits(octets.as_slice(), unused) {
        return Ok(None);
    }
    Ok(Some(Value {
        form: ValueForm::Bits(octets, unused),
    }))
}

/// The bits of a literal.
fn literal_bits(alloc: Global, text: &ValueText) -> Result<Option<BitList>, AllocError>
    ensures { IfOk result (λ found. literal_bits (said text.now) ≡ found) }
{
    match text {
        ValueText::Literal(token) => read_bits(alloc, token),
        _ => Ok(None),
    }
}

/// A value of OCTET STRING.
pub fn read_octet_string(
    alloc: Global,
    sizes: &Ranges,
    text: &ValueText,
) -> Result<Option<Value>, AllocError>
    ensures { IfOk result (λ found. octet_string_said sizes.now (said text.now) ≡ found) }
{
    let Some(bits) = literal_bits(alloc, text)? else {
        return Ok(None);
    };
    let octets = pack(alloc, bits.items.as_slice())?;
    if !sizes.allow_size(octets.as_slice().len()) {
        return Ok(None);
    }
    Ok(Some(Value {
        form: ValueForm::Octets(octets),
    }))
}

/// A value of OBJECT IDENTIFIER.
pub fn read_identifier(
    alloc: Global,
    names: &FirstNames,
    text: &ValueText,
) -> Result<Option<Value>, AllocError>
    ensures { IfOk result (λ found. identifier_said (arcs_named names.now) (said text.now) ≡ found) }
{
    let Some(arcs) = read_arcs(alloc, names, text)? else {
        return Ok(None);
    };
    match Oid::from_arcs(arcs.items) {
        None => Ok(None),
        Some(identifier) => Ok(Some(Value {
            form: ValueForm::Oid(identifier),
        })),
    }
}

/// What a string says.
fn string_said(alloc: Global, text: &ValueText) -> Result<Option<Bytes>, AllocError>
    ensures { IfOk result (λ found. string_said (said text.now) ≡ found) }
{
    match text {
        ValueText::Literal(token) => read_string(alloc, token),
        _ => Ok(None),
    }
}

/// A value of a string type.
pub fn read_text(
    alloc: Global,
    charset: Charset,
    sizes: &Ranges,
    text: &ValueText,
) -> Result<Option<Value>, AllocError>
    ensures { IfOk result (λ found. text_said charset sizes.now (said text.now) ≡ found) }
{
    let Some(octets) = string_said(alloc, text)? else {
        return Ok(None);
    };
    if charset.has_all(octets.as_slice()) && sizes.allow_size(octets.as_slice().len()) {
        return Ok(Some(Value {
            form: ValueForm::Text(octets),
        }));
    }
    Ok(None)
}

/// A value of GeneralizedTime.
pub fn read_time(alloc: Global, text: &ValueText) -> Result<Option<Value>, AllocError>
    ensures { IfOk result (λ found. time_said (said text.now) ≡ found) }
{
    let Some(octets) = string_said(alloc, text)? else {
        return Ok(None);
    };
    if is_time(octets.as_slice()) {
        return Ok(Some(Value {
            form: ValueForm::Time(octets),
        }));
    }
    Ok(None)
}
