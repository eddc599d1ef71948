//! The values of an object's attributes.

ghost use Rattle.std.specs.Prelude.{◌≡◌, ◌↔◌, IsTrue};
ghost use Rattle.std.specs.Option.{option_copied};
ghost use Rattle.term_model.specs.FilterTruth.{value_in};
ghost use Rattle.cmis_filter.specs.Rising.{AreRising, do_rise};

use std::cmp::Ordering;
use term_model::Attribute;
use term_values::{Oid, Value};

/// Whether each attribute stands before the next one.
fn do_rise(attributes: &[Attribute]) -> bool
    ensures { result ≡ do_rise attributes.now }
{
    for next in 1..attributes.len() {
        let last = next - 1;
        if attributes[last].id.cmp(&attributes[next].id) != Ordering::Less {
            return false;
        }
    }
    true
}

/// Whether the attributes stand by rising identifier, each identifier once, as those of an object of a system do.
pub fn are_rising(attributes: &[Attribute]) -> bool
    ensures { IsTrue result ↔ AreRising attributes.now }
{
    do_rise(attributes)
}

/// The value of the first attribute with this identifier, from the front.
fn value_from_front<'a>(attributes: &'a [Attribute], id: &Oid) -> Option<&'a Value>
    ensures { option_copied result ≡ value_in attributes.now id.now }
{
    for attribute in attributes {
        if attribute.id == *id {
            return Some(&attribute.value);
        }
    }
    None
}

/// The value of the attribute with this identifier, by halves.
fn value_by_halves<'a>(attributes: &'a [Attribute], id: &Oid) -> Option<&'a Value>
    requires { AreRising attributes.now }
    ensures { option_copied result ≡ value_in attributes.now id.now }
{
    let mut rest = attributes;
    'halves: while !rest.is_empty() {
        let middle = rest.len() / 2;
        match rest[middle].id.cmp(id) {
            Ordering::Less => rest = &rest[middle + 1..],
            Ordering::Equal => return Some(&rest[middle].value),
            Ordering::Greater => rest = &rest[..middle],
        }
    }
    None
}

/// The value of the first attribute with this identifier. Where it is known that they rise, it is found by halves.
pub fn value_in<'a>(attributes: &'a [Attribute], rising: bool, id: &Oid) -> Option<&'a Value>
    requires { IsTrue rising → AreRising attributes.now }
    ensures { option_copied result ≡ value_in attributes.now id.now }
{
    if rising {
        value_by_halves(attributes, id)
    } else {
        value_from_front(attributes, id)
    }
}
