//! Whether values are equal.

ghost use Rattle.std.specs.Prelude.{◌≡◌};
ghost use Rattle.term_values.specs.SameValue.{same_value, same_slots, same_values};
ghost use Rattle.term_values.specs.SameParts.{same_slot};

use crate::value::{Slot, Slots, Value, ValueForm, Values};

impl Value {
    /// Whether the other value is equal to this one.
    pub fn is_same(&self, other: &Value) -> bool
        ensures { result ≡ same_value self.now other.now }
    {
        are_same(self, other)
    }
}

#[cycle(comparing)]
fn are_same(value: &Value, other: &Value) -> bool
    ensures { result ≡ same_value value.now other.now }
{
    match (&value.form, &other.form) {
        (ValueForm::Bool(a), ValueForm::Bool(b)) => *a == *b,
        (ValueForm::Int(a), ValueForm::Int(b)) => *a == *b,
        (ValueForm::Bits(a, m), ValueForm::Bits(b, n)) => *m == *n && a == b,
        (ValueForm::Octets(a), ValueForm::Octets(b)) => a == b,
        (ValueForm::Null, ValueForm::Null) => true,
        (ValueForm::Oid(a), ValueForm::Oid(b)) => a == b,
        (ValueForm::Text(a), ValueForm::Text(b)) => a == b,
        (ValueForm::Time(a), ValueForm::Time(b)) => a == b,
        (ValueForm::Parts(a), ValueForm::Parts(b)) => are_same_slots(a, b),
        (ValueForm::Many(a), ValueForm::Many(b)) => are_same_values(a, b),
        (ValueForm::Pick(m, a), ValueForm::Pick(n, b)) => *m == *n && are_same(a, b),
        (ValueForm::Raw(a), ValueForm::Raw(b)) => a == b,
        _ => false,
    }
}

#[cycle(comparing)]
fn is_same_slot(slot: &Slot, other: &Slot) -> bool
    ensures { result ≡ same_slot slot.now other.now }
{
    match slot {
        Slot::Absent => match other {
            Slot::Absent => true,
            Slot::Present(_) => false,
        },
        Slot::Present(value) => match other {
            Slot::Absent => false,
            Slot::Present(held) => are_same(value, held),
        },
    }
}

#[cycle(comparing)]
fn are_same_slots(slots: &Slots, other: &Slots) -> bool
    ensures { result ≡ same_slots slots.now other.now }
{
    let items = slots.items.as_slice();
    let held = other.items.as_slice();
    if items.len() != held.len() {
        return false;
    }
    for i in 0..items.len() {
        if !is_same_slot(&items[i], &held[i]) {
            return false;
        }
    }
    true
}

#[cycle(comparing)]
fn are_same_values(values: &Values, other: &Values) -> bool
    ensures { result ≡ same_values values.now other.now }
{
    let items = values.items.as_slice();
    let held = other.items.as_slice();
    if items.len() != held.len() {
        return false;
    }
    for i in 0..items.len() {
        if !are_same(&items[i], &held[i]) {
            return false;
        }
    }
    true
}
