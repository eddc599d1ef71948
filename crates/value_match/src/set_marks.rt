//! The octets of the tags of a SET's components, in rising order and without memory: X.690, sections 8.1.2 and 10.3.

ghost use Rattle.std.specs.Prelude.{◌≡◌, ◌⊎◌, ◌≤◌, ℕ, IfSome, true};
ghost use Rattle.value_match.specs.MemberKeys.{is_written};
ghost use Rattle.value_match.specs.SetMarks.{IsBelow, IsLeastMark, IsMarkFrom, IsMarkOf, IsMarkOfEither, IsOther};
ghost use Rattle.value_match.specs.SetMarks.{IsPlaceOfMark};
ghost use Rattle.value_match.specs.SlotKeys.{has_mark};

use crate::marks::mark_of;
use term_values::{Part, Slot, Value};

/// A component that equals its DEFAULT isn't written.
pub fn is_written(part: &Part, value: &Value) -> bool
    ensures { result ≡ is_written part.now.default value.now }
{
    match &part.default {
        None => true,
        Some(default) => !value.is_same(default),
    }
}

/// Whether a component is written, behind these octets of a tag.
fn has_mark(part: &Part, slot: &Slot, mark: u64) -> bool
    ensures { result ≡ has_mark part.now slot.now mark }
{
    match slot {
        Slot::Absent => false,
        Slot::Present(value) => {
            if is_written(part, value) {
                mark_of(None, &part.syntax, value) == mark
            } else {
                false
            }
        }
    }
}

/// The octets of the tag of a component, or none where it isn't written.
fn mark_of_slot(part: &Part, slot: &Slot) -> Option<u64>
    ensures other { IsMarkOf part.now slot.now result }
    ensures own { IfSome result (λ own. has_mark part.now slot.now own ≡ true) }
{
    match slot {
        Slot::Absent => None,
        Slot::Present(value) => {
            if is_written(part, value) {
                Some(mark_of(None, &part.syntax, value))
            } else {
                None
            }
        }
    }
}

/// The lesser one of two numbers, where there are two.
fn lesser(first: Option<u64>, second: Option<u64>) -> Option<u64>
    ensures first { (n : ℕ) → IsBelow result n → IsBelow first n }
    ensures second { (n : ℕ) → IsBelow result n → IsBelow second n }
    ensures one { (result ≡ first) ⊎ (result ≡ second) }
{
    match first {
        None => second,
        Some(a) => match second {
            None => first,
            Some(b) => { if a < b { first } else { second } }
        },
    }
}

/// A number from `from` on, or none.
fn at_least(number: Option<u64>, from: u64) -> Option<u64>
    ensures other { (n : ℕ) → from ≤ n → IsBelow result n → IsOther number n }
    ensures same { IfSome result (λ found. (from ≤ found) × (number ≡ Some found)) }
{
    match number {
        None => None,
        Some(found) => { if found < from { None } else { number } }
    }
}

/// The least octets from `from` on that a component has. Looks at each component once.
fn least_mark(items: &[Part], slots: &[Slot], from: u64) -> Option<u64>
    ensures least { IsLeastMark items.now slots.now from result }
    ensures there { IsMarkFrom items.now slots.now from result }
{
    let count = items.len().min(slots.len());
    let mut least = None;
    for i in (0..count).rev() {
        let own = mark_of_slot(&items[i], &slots[i]);
        least = lesser(at_least(own, from), least);
    }
    least
}

/// The least octets from `from` on that a component of either value has.
pub fn least_of_both(items: &[Part], slots: &[Slot], others: &[Slot], from: u64) -> Option<u64>
    ensures first { IsLeastMark items.now slots.now from result }
    ensures second { IsLeastMark items.now others.now from result }
    ensures there { IsMarkOfEither items.now slots.now others.now from result }
{
    lesser(
        least_mark(items, slots, from),
        least_mark(items, others, from),
    )
}

/// The place of the component that has these octets.
pub fn place_of_mark(items: &[Part], slots: &[Slot], mark: u64) -> Option<usize>
    ensures { IsPlaceOfMark items.now slots.now mark result }
{
    for i in 0..items.len().min(slots.len()) {
        if has_mark(&items[i], &slots[i], mark) {
            return Some(i);
        }
    }
    None
}
