//! The rising order of the members of a SET OF: X.690, section 11.6.

ghost use Rattle.std.specs.Prelude.{◌≡◌, [], IfOk};
ghost use Rattle.term_values.specs.Rearranged.{may_precede};
ghost use Rattle.term_values.specs.ValueContents.{member_encodings};
ghost use Rattle.term_values.specs.Written.{der};
ghost use Rattle.term_values.specs.FitTest.{rise_from};

use ber_values::encode_into;
use std::alloc::{AllocError, Global};
use term_values::{Bytes, Syntax, Value, Values};

/// The octets of a member in its one form.
fn encoding_of(alloc: Global, member: &Syntax, value: &Value) -> Result<Bytes, AllocError>
    ensures { IfOk result (λ octets. octets ≡ der member.now value.now) }
{
    let mut items = Vec::new(alloc);
    encode_into(alloc, member, value, &mut items)?;
    Ok(Bytes { items })
}

/// The first encoding may stand before the second.
fn may_precede(first: &Bytes, second: &Bytes) -> bool
    ensures { result ≡ may_precede first.now second.now }
{
    first <= second
}

/// Each member's encoding may stand behind that of the one before it. Each is written once.
pub(crate) fn are_rising(
    alloc: Global,
    member: &Syntax,
    values: &Values,
) -> Result<bool, AllocError>
    ensures { IfOk result (λ found. found ≡ rise_from [] (member_encodings (der member.now) values.now)) }
{
    let mut before = Bytes::new(alloc);
    for value in values.items.as_slice() {
        let encoding = encoding_of(alloc, member, value)?;
        if !may_precede(&before, &encoding) {
            return Ok(false);
        }
        before = encoding;
    }
    Ok(true)
}
