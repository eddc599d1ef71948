//! Whether what types are made of is the same: X.680, sections 19 to 24 and 47.

ghost use Rattle.std.specs.Prelude.{◌≡◌};
ghost use Rattle.term_values.specs.SameSyntax.{same_bounds, same_charset, same_default, same_name, same_names};
ghost use Rattle.term_values.specs.SameSyntax.{same_pair};

use term_values::{Bytes, Charset, Names, Ranges, Value};

fn same_name(one: &(Bytes, i64), other: &(Bytes, i64)) -> bool
    ensures { result ≡ same_name one.now other.now }
{
    one.0 == other.0 && one.1 == other.1
}

/// Named numbers are the same where their names and numbers are, in their order.
pub(crate) fn same_names(one: &Names, other: &Names) -> bool
    ensures { result ≡ same_names one.now other.now }
{
    let names = one.items.as_slice();
    let others = other.items.as_slice();
    if names.len() != others.len() {
        return false;
    }
    for i in 0..names.len() {
        if !same_name(&names[i], &others[i]) {
            return false;
        }
    }
    true
}

fn same_pair(one: &(i64, i64), other: &(i64, i64)) -> bool
    ensures { result ≡ same_pair one.now other.now }
{
    one.0 == other.0 && one.1 == other.1
}

/// Ranges are the same where their bounds are, in their order.
pub(crate) fn same_bounds(one: &Ranges, other: &Ranges) -> bool
    ensures { result ≡ same_bounds one.now other.now }
{
    let pairs = one.items.as_slice();
    let others = other.items.as_slice();
    if pairs.len() != others.len() {
        return false;
    }
    for i in 0..pairs.len() {
        if !same_pair(&pairs[i], &others[i]) {
            return false;
        }
    }
    true
}

pub(crate) fn same_charset(one: Charset, other: Charset) -> bool
    ensures { result ≡ same_charset one other }
{
    match (one, other) {
        (Charset::Numeric, Charset::Numeric) => true,
        (Charset::Printable, Charset::Printable) => true,
        (Charset::Ia5, Charset::Ia5) => true,
        (Charset::Visible, Charset::Visible) => true,
        (Charset::Graphic, Charset::Graphic) => true,
        _ => false,
    }
}

/// DEFAULTs are the same where both are left out, or both are the same value.
pub(crate) fn same_default(one: &Option<Value>, other: &Option<Value>) -> bool
    ensures { result ≡ same_default one.now other.now }
{
    match one {
        None => match other {
            None => true,
            Some(_) => false,
        },
        Some(value) => match other {
            None => false,
            Some(held) => value.is_same(held),
        },
    }
}
