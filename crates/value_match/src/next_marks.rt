//! The octets of the tags that come next among the components of a SEQUENCE: X.690, section 8.1.2.

ghost use Rattle.std.specs.Prelude.{IfSome, drop};
ghost use Rattle.term_values.specs.PartsView.{parts_listed};
ghost use Rattle.term_values.specs.SlotsView.{slots_listed};
ghost use Rattle.value_match.specs.MemberKeys.{slots_key};
ghost use Rattle.value_match.specs.MemberOrder.{TellsOrder};
ghost use Rattle.value_match.specs.SlotKeys.{BeginsWith};

use crate::marks::mark_of;
use crate::set_marks::is_written;
use crate::told::{MemberOrder, order_of_numbers, order_then};
use term_values::{Part, Slot};

/// The octets of the tag of the first component from `from` on that is written, or none.
fn next_mark(items: &[Part], slots: &[Slot], from: usize) -> Option<u64>
    ensures { IfSome result (λ mark. BeginsWith mark
        (slots_key (parts_listed (drop from items.now)) (slots_listed (drop from slots.now)))) }
{
    let count = items.len().min(slots.len());
    for i in from..count {
        let part = &items[i];
        match &slots[i] {
            Slot::Absent => {}
            Slot::Present(value) => {
                if is_written(part, value) {
                    return Some(mark_of(None, &part.syntax, value));
                }
            }
        }
    }
    None
}

/// The order of components from `from` on, of which one is written on one side alone: that of the tags that come next.
pub fn order_of_next(items: &[Part], slots: &[Slot], others: &[Slot], from: usize) -> MemberOrder
    ensures { TellsOrder result
        (slots_key (parts_listed (drop from items.now)) (slots_listed (drop from slots.now)))
        (slots_key (parts_listed (drop from items.now)) (slots_listed (drop from others.now))) }
{
    match next_mark(items, slots, from) {
        None => MemberOrder::Untold,
        Some(mark) => match next_mark(items, others, from) {
            None => MemberOrder::Untold,
            Some(other) => order_then(order_of_numbers(mark, other), MemberOrder::Untold),
        },
    }
}
