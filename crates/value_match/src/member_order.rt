//! The order in which the members of a SET OF stand, told without writing them: X.690, section 11.6.

ghost use Rattle.std.specs.Prelude.{◌≡◌, ◌∷◌, None};
ghost use Rattle.value_match.specs.Marks.{mark_as};
ghost use Rattle.value_match.specs.FirstSizes.{first_size, pick_size};
ghost use Rattle.value_match.specs.InTurn.{in_turn, mark_count};
ghost use Rattle.value_match.specs.MemberKeys.{component_key, member_key, member_size, pick_key, slots_key, values_key};
ghost use Rattle.value_match.specs.MemberOrder.{TellsOrder};
ghost use Rattle.value_match.specs.SlotKeys.{marked_key, slot_key, value_key};

use crate::first_sizes::first_size;
use crate::leaf_order::order_of_leaves;
use crate::marks::mark_of;
use crate::next_marks::order_of_next;
use crate::set_marks::{is_written, least_of_both, place_of_mark};
use crate::told::{MemberOrder, order_of_numbers, order_then};
use term_values::{Part, Parts, Slot, Slots, Syntax, SyntaxForm, Value, ValueForm, Values};

/// The order of two members of a SET OF.
#[cycle(members)]
pub fn order_of_members(member: &Syntax, value: &Value, other: &Value) -> MemberOrder
    ensures { TellsOrder result (member_key member.now value.now) (member_key member.now other.now) }
{
    let size = first_size(member, value);
    let other_size = first_size(member, other);
    order_of_measured(member, value, size, other, other_size)
}

/// The order of two members whose sizes are known. Where the sizes tell it, what the members hold isn't looked at.
#[cycle(members)]
pub fn order_of_measured(
    member: &Syntax,
    value: &Value,
    size: u64,
    other: &Value,
    other_size: u64,
) -> MemberOrder
    ensures { size ≡ first_size member.now value.now → other_size ≡ first_size member.now other.now
        → TellsOrder result (member_key member.now value.now) (member_key member.now other.now) }
{
    match &member.form {
        SyntaxForm::Tagged(_, explicit, of) => {
            if *explicit {
                order_of_tagged(of, value, size, other, other_size)
            } else {
                order_of_measured(of, value, size, other, other_size)
            }
        }
        SyntaxForm::Seq(parts) => match (&value.form, &other.form) {
            (ValueForm::Parts(slots), ValueForm::Parts(others)) => {
                order_of_sequences(parts, slots, size, others, other_size)
            }
            _ => MemberOrder::Untold,
        },
        SyntaxForm::Unordered(parts) => match (&value.form, &other.form) {
            (ValueForm::Parts(slots), ValueForm::Parts(others)) => {
                order_of_sets(parts, slots, size, others, other_size)
            }
            _ => MemberOrder::Untold,
        },
        SyntaxForm::ListOf(of, _) => match (&value.form, &other.form) {
            (ValueForm::Many(values), ValueForm::Many(others)) => {
                order_of_lists(of, values, size, others, other_size)
            }
            _ => MemberOrder::Untold,
        },
        SyntaxForm::SetOf(of, _) => match (&value.form, &other.form) {
            (ValueForm::Many(values), ValueForm::Many(others)) => {
                order_of_lists(of, values, size, others, other_size)
            }
            _ => MemberOrder::Untold,
        },
        SyntaxForm::Choice(parts) => match (&value.form, &other.form) {
            (ValueForm::Pick(m, picked), ValueForm::Pick(n, other_picked)) => {
                order_of_picks(parts, *m, picked, size, *n, other_picked, other_size)
            }
            _ => MemberOrder::Untold,
        },
        _ => order_of_leaves(value, other),
    }
}

/// The order of what stands under an explicit tag, behind its size.
#[cycle(members)]
fn order_of_tagged(
    of: &Syntax,
    value: &Value,
    size: u64,
    other: &Value,
    other_size: u64,
) -> MemberOrder
    ensures { TellsOrder result (size ∷ member_key of.now value.now) (other_size ∷ member_key of.now other.now) }
{
    if size < other_size {
        return MemberOrder::Before;
    }
    if other_size < size {
        return MemberOrder::After;
    }
    order_of_members(of, value, other)
}

/// The order of values of a SEQUENCE, whose components stand behind their size.
#[cycle(members)]
fn order_of_sequences(
    parts: &Parts,
    slots: &Slots,
    size: u64,
    others: &Slots,
    other_size: u64,
) -> MemberOrder
    ensures { TellsOrder result (size ∷ slots_key parts.now slots.now) (other_size ∷ slots_key parts.now others.now) }
{
    if size < other_size {
        return MemberOrder::Before;
    }
    if other_size < size {
        return MemberOrder::After;
    }
    order_of_slots(parts, slots, others)
}

/// The order of values of a SET, whose components stand behind their size.
#[cycle(members)]
fn order_of_sets(
    parts: &Parts,
    slots: &Slots,
    size: u64,
    others: &Slots,
    other_size: u64,
) -> MemberOrder
    ensures { TellsOrder result (size ∷ in_turn (component_key parts.now slots.now) mark_count)
        (other_size ∷ in_turn (component_key parts.now others.now) mark_count) }
{
    if size < other_size {
        return MemberOrder::Before;
    }
    if other_size < size {
        return MemberOrder::After;
    }
    order_of_components(parts, slots, others)
}

/// The order of lists of members, which stand behind their size.
#[cycle(members)]
fn order_of_lists(
    member: &Syntax,
    values: &Values,
    size: u64,
    others: &Values,
    other_size: u64,
) -> MemberOrder
    ensures { TellsOrder result (size ∷ values_key (member_key member.now) values.now)
        (other_size ∷ values_key (member_key member.now) others.now) }
{
    if size < other_size {
        return MemberOrder::Before;
    }
    if other_size < size {
        return MemberOrder::After;
    }
    order_of_values(member, values, others)
}

/// The order of values of an alternative each, whose sizes are known.
#[cycle(members)]
fn order_of_picks(
    parts: &Parts,
    index: u32,
    value: &Value,
    size: u64,
    other_index: u32,
    other: &Value,
    other_size: u64,
) -> MemberOrder
    ensures { size ≡ pick_size parts.now index value.now → other_size ≡ pick_size parts.now other_index other.now
        → TellsOrder result (pick_key parts.now index value.now) (pick_key parts.now other_index other.now) }
{
    let items = parts.items.as_slice();
    let first = index as usize;
    let second = other_index as usize;
    if first >= items.len() || second >= items.len() {
        return MemberOrder::Untold;
    }
    let part = &items[first];
    let other_part = &items[second];
    let mark = mark_of(None, &part.syntax, value);
    let other_mark = mark_of(None, &other_part.syntax, other);
    let marks = order_of_numbers(mark, other_mark);
    if first == second {
        let behind = order_of_measured(&part.syntax, value, size, other, other_size);
        return order_then(marks, behind);
    }
    order_then(marks, MemberOrder::Untold)
}

/// The order of values of one syntax with the octets of their tags in front.
#[cycle(members)]
fn order_of_marked(syntax: &Syntax, value: &Value, other: &Value) -> MemberOrder
    ensures { TellsOrder result (mark_as None syntax.now value.now ∷ member_key syntax.now value.now)
        (mark_as None syntax.now other.now ∷ member_key syntax.now other.now) }
{
    let mark = mark_of(None, syntax, value);
    let other_mark = mark_of(None, syntax, other);
    order_then(
        order_of_numbers(mark, other_mark),
        order_of_members(syntax, value, other),
    )
}

/// The order of lists of members.
#[cycle(members)]
fn order_of_values(member: &Syntax, values: &Values, others: &Values) -> MemberOrder
    ensures { TellsOrder result (values_key (member_key member.now) values.now)
        (values_key (member_key member.now) others.now) }
{
    let items = values.items.as_slice();
    let other_items = others.items.as_slice();
    for i in 0..items.len().min(other_items.len()) {
        match order_of_members(member, &items[i], &other_items[i]) {
            MemberOrder::Before => return MemberOrder::Before,
            MemberOrder::Alike => {}
            MemberOrder::After => return MemberOrder::After,
            MemberOrder::Untold => return MemberOrder::Untold,
        }
    }
    if items.len() == other_items.len() {
        MemberOrder::Alike
    } else {
        MemberOrder::Untold
    }
}

/// The order of values of one component that are both there.
#[cycle(members)]
fn order_of_both(part: &Part, value: &Value, other: &Value) -> MemberOrder
    ensures { TellsOrder result (value_key part.now value.now) (value_key part.now other.now) }
{
    if is_written(part, value) {
        if is_written(part, other) {
            order_of_marked(&part.syntax, value, other)
        } else {
            MemberOrder::Untold
        }
    } else if is_written(part, other) {
        MemberOrder::Untold
    } else {
        MemberOrder::Alike
    }
}

/// The order of one component of two values. Where it is written in one of them alone, nothing is told.
#[cycle(members)]
fn order_of_slot(part: &Part, slot: &Slot, other: &Slot) -> MemberOrder
    ensures { TellsOrder result (slot_key part.now slot.now) (slot_key part.now other.now) }
{
    match slot {
        Slot::Absent => match other {
            Slot::Absent => MemberOrder::Alike,
            Slot::Present(held) => {
                if is_written(part, held) {
                    MemberOrder::Untold
                } else {
                    MemberOrder::Alike
                }
            }
        },
        Slot::Present(value) => match other {
            Slot::Absent => {
                if is_written(part, value) {
                    MemberOrder::Untold
                } else {
                    MemberOrder::Alike
                }
            }
            Slot::Present(held) => order_of_both(part, value, held),
        },
    }
}

/// The order of components.
#[cycle(members)]
fn order_of_slots(parts: &Parts, slots: &Slots, others: &Slots) -> MemberOrder
    ensures { TellsOrder result (slots_key parts.now slots.now) (slots_key parts.now others.now) }
{
    let items = parts.items.as_slice();
    let present = slots.items.as_slice();
    let other_present = others.items.as_slice();
    let count = items.len().min(present.len());
    if present.len() != other_present.len() {
        return MemberOrder::Untold;
    }
    for i in 0..count {
        match order_of_slot(&items[i], &present[i], &other_present[i]) {
            MemberOrder::Before => return MemberOrder::Before,
            MemberOrder::Alike => {}
            MemberOrder::After => return MemberOrder::After,
            MemberOrder::Untold => return order_of_next(items, present, other_present, i),
        }
    }
    MemberOrder::Alike
}

/// The order of the components of two SETs that have the octets of a tag in place `mark`. Where it is one component in
/// both, its values tell it; a SET that alone has one stands before the other.
#[cycle(members)]
fn order_at(parts: &Parts, slots: &Slots, others: &Slots, mark: u64) -> MemberOrder
    ensures { TellsOrder result (component_key parts.now slots.now mark) (component_key parts.now others.now mark) }
{
    let items = parts.items.as_slice();
    let present = slots.items.as_slice();
    let other_present = others.items.as_slice();
    match place_of_mark(items, present, mark) {
        None => match place_of_mark(items, other_present, mark) {
            None => MemberOrder::Alike,
            Some(_) => MemberOrder::After,
        },
        Some(i) => match place_of_mark(items, other_present, mark) {
            None => MemberOrder::Before,
            Some(j) => {
                if i == j {
                    order_of_found(&items[i], &present[i], &other_present[i])
                } else {
                    MemberOrder::Untold
                }
            }
        },
    }
}

/// The order of values of one component that are both there, behind the octets of one tag.
#[cycle(members)]
fn order_of_found(part: &Part, slot: &Slot, other: &Slot) -> MemberOrder
    ensures { TellsOrder result (marked_key part.now slot.now) (marked_key part.now other.now) }
{
    match slot {
        Slot::Absent => MemberOrder::Untold,
        Slot::Present(value) => match other {
            Slot::Absent => MemberOrder::Untold,
            Slot::Present(held) => order_of_members(&part.syntax, value, held),
        },
    }
}

/// The order of the components of two SETs, by rising octets of their tags. Takes for each component a look at all of
/// the type's, and one look at what it holds.
#[cycle(members)]
fn order_of_components(parts: &Parts, slots: &Slots, others: &Slots) -> MemberOrder
    ensures { TellsOrder result (in_turn (component_key parts.now slots.now) mark_count)
        (in_turn (component_key parts.now others.now) mark_count) }
{
    let items = parts.items.as_slice();
    let present = slots.items.as_slice();
    let other_present = others.items.as_slice();
    let mut from = 0;
    for _turn in 0..items.len() {
        match least_of_both(items, present, other_present, from) {
            None => return MemberOrder::Alike,
            Some(mark) => match order_at(parts, slots, others, mark) {
                MemberOrder::Before => return MemberOrder::Before,
                MemberOrder::Alike => match mark.checked_add(1) {
                    None => return MemberOrder::Untold,
                    Some(next) => from = next,
                },
                MemberOrder::After => return MemberOrder::After,
                MemberOrder::Untold => return MemberOrder::Untold,
            },
        }
    }
    match least_of_both(items, present, other_present, from) {
        None => MemberOrder::Alike,
        Some(_) => MemberOrder::Untold,
    }
}
