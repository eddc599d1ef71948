//! The order of the encodings of values that hold no others: X.690, sections 8 and 11.6.

ghost use Rattle.std.specs.Prelude.{◌≡◌, ◌∷◌, [], length};
ghost use Rattle.term_values.specs.Octets.{count_signed};
ghost use Rattle.value_match.specs.LeafKeys.{leaf_key, magnitude, whole_key, whole_place};
ghost use Rattle.value_match.specs.MemberOrder.{TellsOrder};

use crate::arc_order::order_of_identifiers;
use crate::told::{MemberOrder, order_of_numbers, order_then};
use std::cmp::Ordering;
use term_values::{Bytes, Value, ValueForm};

/// The order of two lengths.
fn order_of_lengths(size: usize, other: usize) -> MemberOrder
    ensures { TellsOrder result (size ∷ []) (other ∷ []) }
{
    if size < other {
        MemberOrder::Before
    } else if other < size {
        MemberOrder::After
    } else {
        MemberOrder::Alike
    }
}

/// The order of as many octets of both.
fn order_of_fronts(octets: &[u8], others: &[u8]) -> MemberOrder
    requires { length octets.now ≡ length others.now }
    ensures { TellsOrder result octets.now others.now }
{
    match octets.cmp(others) {
        Ordering::Less => MemberOrder::Before,
        Ordering::Equal => MemberOrder::Alike,
        Ordering::Greater => MemberOrder::After,
    }
}

/// The order of octets that stand alone. Where one begins the other, nothing is told.
fn order_of_raw(octets: &Bytes, others: &Bytes) -> MemberOrder
    ensures { TellsOrder result octets.now others.now }
{
    let first = octets.as_slice();
    let second = others.as_slice();
    if first.len() == second.len() {
        return order_of_fronts(first, second);
    }
    let count = first.len().min(second.len());
    match order_of_fronts(&first[..count], &second[..count]) {
        MemberOrder::Before => MemberOrder::Before,
        MemberOrder::After => MemberOrder::After,
        _ => MemberOrder::Untold,
    }
}

/// The order of octets behind their length.
fn order_of_octets(octets: &Bytes, others: &Bytes) -> MemberOrder
    ensures { TellsOrder result (length octets.now ∷ octets.now) (length others.now ∷ others.now) }
{
    let first = octets.as_slice();
    let second = others.as_slice();
    if first.len() < second.len() {
        MemberOrder::Before
    } else if second.len() < first.len() {
        MemberOrder::After
    } else {
        order_of_fronts(first, second)
    }
}

/// A number, or of one below zero the number of those between it and zero.
fn magnitude(number: i64) -> u64
    ensures { result ≡ magnitude number }
{
    if number < 0 {
        (-(number + 1)) as u64
    } else {
        number as u64
    }
}

/// Two's complement of 64 bits.
fn whole_place(number: i64) -> u64
    ensures { result ≡ whole_place number }
{
    if number < 0 {
        18_446_744_073_709_551_615 - (-(number + 1)) as u64
    } else {
        number as u64
    }
}

/// How many octets leave the first bit zero.
fn signed_octets(number: u64) -> u64
    ensures { result ≡ count_signed number }
{
    match number {
        0..=0x7F => 1,
        0x80..=0x7FFF => 2,
        0x8000..=0x7F_FFFF => 3,
        0x80_0000..=0x7FFF_FFFF => 4,
        0x8000_0000..=0x7F_FFFF_FFFF => 5,
        0x80_0000_0000..=0x7FFF_FFFF_FFFF => 6,
        0x8000_0000_0000..=0x7F_FFFF_FFFF_FFFF => 7,
        _ => 8,
    }
}

/// The order of whole numbers.
fn order_of_wholes(number: i64, other: i64) -> MemberOrder
    ensures { TellsOrder result (whole_key number) (whole_key other) }
{
    let size = signed_octets(magnitude(number));
    let other_size = signed_octets(magnitude(other));
    order_then(
        order_of_numbers(size, other_size),
        order_of_numbers(whole_place(number), whole_place(other)),
    )
}

/// The order of strings of bits.
fn order_of_bits(octets: &Bytes, unused: u8, others: &Bytes, other: u8) -> MemberOrder
    ensures { TellsOrder result (length octets.now ∷ (unused ∷ octets.now)) (length others.now ∷ (other ∷ others.now)) }
{
    order_then(
        order_of_lengths(octets.as_slice().len(), others.as_slice().len()),
        order_then(
            order_of_numbers(unused as u64, other as u64),
            order_of_raw(octets, others),
        ),
    )
}

/// The order of values that hold no others.
pub fn order_of_leaves(value: &Value, other: &Value) -> MemberOrder
    ensures { TellsOrder result (leaf_key value.now) (leaf_key other.now) }
{
    match (&value.form, &other.form) {
        (ValueForm::Bool(a), ValueForm::Bool(b)) => {
            order_of_numbers(if *a { 1 } else { 0 }, if *b { 1 } else { 0 })
        }
        (ValueForm::Int(a), ValueForm::Int(b)) => order_of_wholes(*a, *b),
        (ValueForm::Bits(a, n), ValueForm::Bits(b, m)) => order_of_bits(a, *n, b, *m),
        (ValueForm::Octets(a), ValueForm::Octets(b)) => order_of_octets(a, b),
        (ValueForm::Null, ValueForm::Null) => MemberOrder::Alike,
        (ValueForm::Oid(a), ValueForm::Oid(b)) => order_of_identifiers(a, b),
        (ValueForm::Text(a), ValueForm::Text(b)) => order_of_octets(a, b),
        (ValueForm::Time(a), ValueForm::Time(b)) => order_of_octets(a, b),
        (ValueForm::Raw(a), ValueForm::Raw(b)) => order_of_raw(a, b),
        _ => MemberOrder::Untold,
    }
}
