//! The order of identifiers by their contents octets: X.690, section 8.19.

ghost use Rattle.std.specs.Prelude.{◌≡◌, ◌<◌, ◌≤◌, ◌∷◌, [], map};
ghost use Rattle.term_values.specs.Typed.TypedValue.{Identifier};
ghost use Rattle.value_match.specs.LeafKeys.{arc_place, arc_size, arcs_size, five, leaf_key};
ghost use Rattle.value_match.specs.MemberOrder.{TellsOrder};

use crate::told::{MemberOrder, order_of_numbers, order_then};
use term_values::Oid;

/// How many octets a subidentifier has.
fn arc_size(arc: u64) -> u64
    ensures exact { result ≡ arc_size arc }
    ensures within { result ≤ 5 }
{
    match arc {
        0..=127 => 1,
        128..=16_383 => 2,
        16_384..=2_097_151 => 3,
        2_097_152..=268_435_455 => 4,
        _ => 5,
    }
}

/// Five octets as one number.
pub fn five(a: u64, b: u64, c: u64, d: u64, e: u64) -> u64
    requires a { a < 256 }
    requires b { b < 256 }
    requires c { c < 256 }
    requires d { d < 256 }
    requires e { e < 256 }
    ensures exact { result ≡ five a b c d e }
    ensures within { result < 1099511627776 }
{
    a * 4_294_967_296 + b * 16_777_216 + c * 65_536 + d * 256 + e
}

/// The octets of a subidentifier, and as many zeros as make five.
pub fn arc_place(arc: u64) -> u64
    requires { arc < 8589934592 }
    ensures exact { result ≡ arc_place arc }
    ensures within { result < 1099511627776 }
{
    let last = arc % 128;
    let fourth = 128 + arc / 128 % 128;
    let third = 128 + arc / 16_384 % 128;
    let second = 128 + arc / 2_097_152 % 128;
    if arc < 128 {
        five(arc, 0, 0, 0, 0)
    } else if arc < 16_384 {
        five(128 + arc / 128, last, 0, 0, 0)
    } else if arc < 2_097_152 {
        five(128 + arc / 16_384, fourth, last, 0, 0)
    } else if arc < 268_435_456 {
        five(128 + arc / 2_097_152, third, fourth, last, 0)
    } else {
        five(128 + arc / 268_435_456, second, third, fourth, last)
    }
}

/// How many octets subidentifiers have.
fn arcs_size(arcs: &[u32]) -> u128
    ensures exact { result ≡ arcs_size arcs.now }
    ensures within { result < 340282366920938463463374607431768211440 }
{
    let mut size = 0;
    for i in 0..arcs.len() {
        size += arc_size(arcs[i] as u64) as u128;
    }
    size
}

fn order_of_sizes(size: u128, other: u128) -> MemberOrder
    ensures { TellsOrder result (size ∷ []) (other ∷ []) }
{
    if size < other {
        MemberOrder::Before
    } else if other < size {
        MemberOrder::After
    } else {
        MemberOrder::Alike
    }
}

/// The order of arcs behind the first two.
fn order_of_arcs(arcs: &[u32], others: &[u32]) -> MemberOrder
    ensures { TellsOrder result (map arc_place arcs.now) (map arc_place others.now) }
{
    for i in 0..arcs.len().min(others.len()) {
        let place = arc_place(arcs[i] as u64);
        let other = arc_place(others[i] as u64);
        if place < other {
            return MemberOrder::Before;
        }
        if other < place {
            return MemberOrder::After;
        }
    }
    if arcs.len() == others.len() {
        MemberOrder::Alike
    } else {
        MemberOrder::Untold
    }
}

/// The order of identifiers whose first two arcs make these subidentifiers.
fn order_behind(first: u64, arcs: &[u32], other: u64, others: &[u32]) -> MemberOrder
    requires first { first < 8589934592 }
    requires other { other < 8589934592 }
    ensures { TellsOrder result (arcs_size (first ∷ arcs.now) ∷ map arc_place (first ∷ arcs.now))
        (arcs_size (other ∷ others.now) ∷ map arc_place (other ∷ others.now)) }
{
    let size = arc_size(first) as u128 + arcs_size(arcs);
    let other_size = arc_size(other) as u128 + arcs_size(others);
    order_then(
        order_of_sizes(size, other_size),
        order_then(
            order_of_numbers(arc_place(first), arc_place(other)),
            order_of_arcs(arcs, others),
        ),
    )
}

/// The order of identifiers.
pub fn order_of_identifiers(id: &Oid, other: &Oid) -> MemberOrder
    ensures { TellsOrder result (leaf_key (Identifier id.now)) (leaf_key (Identifier other.now)) }
{
    match id.arcs() {
        [first, second, arcs @ ..] => match other.arcs() {
            [third, fourth, others @ ..] => {
                let begun = *first as u64 * 40 + *second as u64;
                let other_begun = *third as u64 * 40 + *fourth as u64;
                order_behind(begun, arcs, other_begun, others)
            }
            _ => MemberOrder::Untold,
        },
        _ => MemberOrder::Untold,
    }
}
