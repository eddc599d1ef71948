//! Sets of the encodings of members, by which members are compared: X.690, section 11.

ghost use Rattle.std.specs.Prelude.{◌≡◌, not, IfOk, OnOk};
ghost use Rattle.set_values.specs.EncodingSets.{HasExactly, Grows, holds};
ghost use Rattle.term_values.specs.ValueContents.{member_encodings};
ghost use Rattle.term_values.specs.Written.{der};

use ber_values::encode_into;
use std::alloc::{AllocError, Global};
use std::collections::BTreeSet;
use term_values::{Bytes, Syntax, Value, Values};

/// The octets of a member in its one form.
pub(crate) fn encoding_of(
    alloc: Global,
    member: &Syntax,
    value: &Value,
) -> Result<Bytes, AllocError>
    ensures { IfOk result (λ octets. octets ≡ der member.now value.now) }
{
    let mut items = Vec::new(alloc);
    encode_into(alloc, member, value, &mut items)?;
    Ok(Bytes { items })
}

/// Puts a member's encoding into a set. Whether it is new there.
pub(crate) fn insert_encoding(
    alloc: Global,
    member: &Syntax,
    value: &Value,
    set: &mut BTreeSet<Bytes>,
) -> Result<bool, AllocError>
    ensures new { IfOk result (λ found. found ≡ not (holds set.old (der member.now value.now))) }
    ensures grows { OnOk result (Grows set.old set.new (der member.now value.now)) }
{
    let encoding = encoding_of(alloc, member, value)?;
    let is_new = set.insert(encoding)?;
    Ok(is_new)
}

/// The encodings of the members, each written once.
pub(crate) fn encodings_of(
    alloc: Global,
    member: &Syntax,
    values: &Values,
) -> Result<BTreeSet<Bytes>, AllocError>
    ensures { IfOk result (λ set. HasExactly set (member_encodings (der member.now) values.now)) }
{
    let mut set: BTreeSet<Bytes> = BTreeSet::new(alloc);
    for value in values.items.as_slice() {
        let _ = insert_encoding(alloc, member, value, &mut set)?;
    }
    Ok(set)
}

/// Whether a member's encoding is in the set.
pub(crate) fn has_encoding(
    alloc: Global,
    member: &Syntax,
    value: &Value,
    set: &BTreeSet<Bytes>,
) -> Result<bool, AllocError>
    ensures { IfOk result (λ found. found ≡ holds set.now (der member.now value.now)) }
{
    let encoding = encoding_of(alloc, member, value)?;
    Ok(set.contains(&encoding))
}
