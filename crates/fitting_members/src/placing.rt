//! Members at their places in the rising order of their encodings: X.690, section 11.6.

ghost use Rattle.std.specs.Prelude.{◌≡◌, ◌&&◌, ◌<◌, IfOk, length, remove};
ghost use Rattle.term_values.specs.Rearranged.{may_precede};
ghost use Rattle.term_values.specs.Written.{der};
ghost use Rattle.fitting_members.specs.MemberPlaces.{AreRising, IsPlace, has_at};

use ber_values::encode_into;
use std::alloc::{AllocError, Global};
use term_values::{Bytes, Syntax, Value};

/// The octets of a member in its one form.
pub(crate) fn encoding_of(
    alloc: Global,
    member: &Syntax,
    value: &Value,
) -> Result<Bytes, AllocError>
    ensures { IfOk result (λ octets. octets ≡ der member.now value.now) }
{
    let mut items = Vec::new(alloc);
    encode_into(alloc, member, value, &mut items)?;
    Ok(Bytes { items })
}

/// Whether an encoding may stand before that of a member.
pub(crate) fn precedes(
    alloc: Global,
    member: &Syntax,
    encoding: &Bytes,
    value: &Value,
) -> Result<bool, AllocError>
    ensures { IfOk result (λ found. found ≡ may_precede encoding.now (der member.now value.now)) }
{
    let other = encoding_of(alloc, member, value)?;
    Ok(*encoding <= other)
}

/// How many members have lesser encodings than this one, by halves.
pub(crate) fn place_of(
    alloc: Global,
    member: &Syntax,
    items: &[Value],
    encoding: &Bytes,
) -> Result<usize, AllocError>
    requires { AreRising (der member.now) items.now }
    ensures { IfOk result (IsPlace (der member.now) encoding.now items.now) }
{
    let mut low = 0;
    let mut high = items.len();
    'search: while low < high {
        let middle = low + (high - low) / 2;
        if precedes(alloc, member, encoding, &items[middle])? {
            high = middle;
        } else {
            low = middle + 1;
        }
    }
    Ok(low)
}

/// Whether there is a member at a place, and has this encoding.
pub(crate) fn has_at(
    alloc: Global,
    member: &Syntax,
    items: &[Value],
    at: usize,
    encoding: &Bytes,
) -> Result<bool, AllocError>
    ensures { IfOk result (λ had. had ≡ has_at (der member.now) encoding.now items.now at) }
{
    match items.get(at) {
        None => Ok(false),
        Some(value) => {
            let other = encoding_of(alloc, member, value)?;
            Ok(*encoding == other)
        }
    }
}

/// Whether both hold.
pub(crate) fn both(one: bool, other: bool) -> bool
    ensures { result ≡ (one && other) }
{
    one && other
}

/// Takes the member at a place out.
pub(crate) fn take_out(items: &mut Vec<Value>, at: usize)
    requires { at < length items.old.items }
    ensures { items.new.items ≡ remove items.old.items at }
{
    let _ = items.remove(at);
}
