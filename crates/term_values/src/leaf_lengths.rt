//! How many octets the headers and the contents of values take that hold no others: X.690, sections 8.1.2 to 8.8, 8.19
//! and 8.23.

ghost use Rattle.std.specs.Prelude.{ℕ, List, [], ◌≡◌, ◌+◌, ◌≤◌, flat_map, length, false};
ghost use Rattle.term_values.specs.Lengths.{counted, octet_count};
ghost use Rattle.term_values.specs.Der.{encoded, identifier_octets, length_octets};
ghost use Rattle.term_values.specs.Oid.{subidentifier, oid_contents};
ghost use Rattle.term_values.specs.Octets.{count_signed, count_unsigned, integer_contents};
ghost use Rattle.term_values.specs.ValueContents.{truth_contents, whole_contents, bits_contents, octets_contents};
ghost use Rattle.term_values.specs.ValueContents.{identifier_contents, text_contents, time_contents, raw_octets};

use crate::oid::{Oid, SECOND_ARCS};
use crate::tag::Tag;
use crate::value::{Value, ValueForm};

/// A tag's number from this one on follows its first octet.
const HIGH_NUMBER: u32 = 31;

/// A length from this one on takes more than one octet.
const LONG_LENGTH: u64 = 128;

/// The sum, or the greatest number.
pub fn plus(a: u64, b: u64) -> u64
    ensures { result ≡ counted (a + b) }
{
    if a > u64::MAX - b { u64::MAX } else { a + b }
}

/// How many octets a subidentifier takes: X.690, section 8.19.2.
#[tactic(auto, unfolding(crate::specs::Oid::subidentifier))]
fn subidentifier_length(number: u32) -> u64
    ensures exact { result ≡ length (subidentifier number) }
    ensures small { result ≤ 5 }
{
    match number {
        0..=0x7F => 1,
        0x80..=0x3FFF => 2,
        0x4000..=0x1F_FFFF => 3,
        0x20_0000..=0xFFF_FFFF => 4,
        _ => 5,
    }
}

/// How many octets a tag takes: X.690, section 8.1.2.
#[tactic(auto, unfolding(crate::specs::Der::identifier_octets))]
fn identifier_length(constructed: bool, tag: Tag) -> u64
    ensures { result ≡ length (identifier_octets constructed tag) }
{
    if tag.number < HIGH_NUMBER {
        1
    } else {
        1 + subidentifier_length(tag.number)
    }
}

/// How many octets a number takes without a sign, at least one.
fn unsigned_length(number: u64) -> u64
    ensures exact { result ≡ count_unsigned number }
    ensures within { result ≤ 8 }
{
    match number {
        0..=0xFF => 1,
        0x100..=0xFFFF => 2,
        0x1_0000..=0xFF_FFFF => 3,
        0x100_0000..=0xFFFF_FFFF => 4,
        0x1_0000_0000..=0xFF_FFFF_FFFF => 5,
        0x100_0000_0000..=0xFFFF_FFFF_FFFF => 6,
        0x1_0000_0000_0000..=0xFF_FFFF_FFFF_FFFF => 7,
        _ => 8,
    }
}

/// How many octets a length takes: X.690, section 8.1.3.
#[tactic(auto, using(crate::proofs::LengthCounts::short_length, crate::proofs::LengthCounts::long_length))]
fn length_length(number: u64) -> u64
    ensures { result ≡ length (length_octets number) }
{
    if number < LONG_LENGTH {
        1
    } else {
        1 + unsigned_length(number)
    }
}

/// How many octets a value takes whose contents take so many.
pub fn with_header(constructed: bool, tag: Tag, contents: u64) -> u64
    ensures { (octets : List ℕ) → contents ≡ octet_count octets →
        result ≡ octet_count (encoded constructed tag octets) }
{
    let front = identifier_length(constructed, tag);
    let size = length_length(contents);
    let header = plus(front, size);
    plus(header, contents)
}

fn truth_length(value: &Value) -> u64
    ensures { result ≡ octet_count (truth_contents value.now) }
{
    match &value.form {
        ValueForm::Bool(_) => 1,
        _ => 0,
    }
}

/// How many octets leave the first bit zero.
fn signed_length(number: u64) -> u64
    ensures exact { result ≡ count_signed number }
    ensures within { result ≤ 8 }
{
    match number {
        0..=0x7F => 1,
        0x80..=0x7FFF => 2,
        0x8000..=0x7F_FFFF => 3,
        0x80_0000..=0x7FFF_FFFF => 4,
        0x8000_0000..=0x7F_FFFF_FFFF => 5,
        0x80_0000_0000..=0x7FFF_FFFF_FFFF => 6,
        0x8000_0000_0000..=0x7F_FFFF_FFFF_FFFF => 7,
        _ => 8,
    }
}

/// How many octets the contents of an INTEGER take: X.690, section 8.3.
fn integer_length(value: i64) -> u64
    ensures { result ≡ octet_count (integer_contents value) }
{
    if value < 0 {
        signed_length((-(value + 1)) as u64)
    } else {
        signed_length(value as u64)
    }
}

fn whole_length(value: &Value) -> u64
    ensures { result ≡ octet_count (whole_contents value.now) }
{
    match &value.form {
        ValueForm::Int(number) => integer_length(*number),
        _ => 0,
    }
}

fn bits_length(value: &Value) -> u64
    ensures { result ≡ octet_count (bits_contents value.now) }
{
    match &value.form {
        ValueForm::Bits(octets, _) => plus(1, octets.as_slice().len() as u64),
        _ => 0,
    }
}

fn octets_length(value: &Value) -> u64
    ensures { result ≡ octet_count (octets_contents value.now) }
{
    match &value.form {
        ValueForm::Octets(octets) => octets.as_slice().len() as u64,
        _ => 0,
    }
}

/// How many octets the arcs behind the second take.
fn arcs_length(arcs: &[u32]) -> u64
    ensures { result ≡ octet_count (flat_map subidentifier arcs.now) }
{
    let mut total = 0;
    for i in (0..arcs.len()).rev() {
        total = plus(subidentifier_length(arcs[i]), total);
    }
    total
}

/// How many octets the contents of an OBJECT IDENTIFIER take: X.690, section 8.19.
fn oid_length(oid: &Oid) -> u64
    ensures { result ≡ octet_count (oid_contents oid.now) }
{
    if let [first, second, others @ ..] = oid.arcs() {
        return plus(
            subidentifier_length(*first * SECOND_ARCS + *second),
            arcs_length(others),
        );
    }
    0
}

fn identifier_contents_length(value: &Value) -> u64
    ensures { result ≡ octet_count (identifier_contents value.now) }
{
    match &value.form {
        ValueForm::Oid(id) => oid_length(id),
        _ => 0,
    }
}

fn text_length(value: &Value) -> u64
    ensures { result ≡ octet_count (text_contents value.now) }
{
    match &value.form {
        ValueForm::Text(octets) => octets.as_slice().len() as u64,
        _ => 0,
    }
}

fn time_length(value: &Value) -> u64
    ensures { result ≡ octet_count (time_contents value.now) }
{
    match &value.form {
        ValueForm::Time(octets) => octets.as_slice().len() as u64,
        _ => 0,
    }
}

/// How many octets an ANY or a CMISFilter takes.
pub fn raw_length(value: &Value) -> u64
    ensures { result ≡ octet_count (raw_octets value.now) }
{
    match &value.form {
        ValueForm::Raw(octets) => octets.as_slice().len() as u64,
        _ => 0,
    }
}

/// How many octets a BOOLEAN takes.
pub fn truth_value(tag: Tag, value: &Value) -> u64
    ensures { result ≡ octet_count (encoded false tag (truth_contents value.now)) }
{
    let contents = truth_length(value);
    with_header(false, tag, contents)
}

/// How many octets an INTEGER or an ENUMERATED takes.
pub fn whole_value(tag: Tag, value: &Value) -> u64
    ensures { result ≡ octet_count (encoded false tag (whole_contents value.now)) }
{
    let contents = whole_length(value);
    with_header(false, tag, contents)
}

/// How many octets a BIT STRING takes.
pub fn bits_value(tag: Tag, value: &Value) -> u64
    ensures { result ≡ octet_count (encoded false tag (bits_contents value.now)) }
{
    let contents = bits_length(value);
    with_header(false, tag, contents)
}

/// How many octets an OCTET STRING takes.
pub fn octets_value(tag: Tag, value: &Value) -> u64
    ensures { result ≡ octet_count (encoded false tag (octets_contents value.now)) }
{
    let contents = octets_length(value);
    with_header(false, tag, contents)
}

/// How many octets a NULL takes.
pub fn null_value(tag: Tag) -> u64
    ensures { result ≡ octet_count (encoded false tag []) }
{
    with_header(false, tag, 0)
}

/// How many octets an OBJECT IDENTIFIER takes.
pub fn identifier_value(tag: Tag, value: &Value) -> u64
    ensures { result ≡ octet_count (encoded false tag (identifier_contents value.now)) }
{
    let contents = identifier_contents_length(value);
    with_header(false, tag, contents)
}

/// How many octets a text takes.
pub fn text_value(tag: Tag, value: &Value) -> u64
    ensures { result ≡ octet_count (encoded false tag (text_contents value.now)) }
{
    let contents = text_length(value);
    with_header(false, tag, contents)
}

/// How many octets a GeneralizedTime takes.
pub fn time_value(tag: Tag, value: &Value) -> u64
    ensures { result ≡ octet_count (encoded false tag (time_contents value.now)) }
{
    let contents = time_length(value);
    with_header(false, tag, contents)
}
