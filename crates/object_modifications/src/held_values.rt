//! The values that an object holds, in their written encoding: X.711, section 7.5, type Attribute.

ghost use Rattle.std.specs.Prelude.{◌≡◌, IfOk};
ghost use Rattle.term_model.specs.ObjectGet.{told};
ghost use Rattle.term_model.specs.ObjectOperation.{value_octets};

use ber_tree::tree_writing::reverse_from;
use ber_values::encoding::encode_backwards;
use std::alloc::{AllocError, Global};
use term_model::{AttrRecs, Attribute, AttributeValue};
use term_values::Bytes;

/// The written encoding of an attribute's value; one without a record has none.
pub(crate) fn value_octets(
    alloc: Global,
    records: &AttrRecs,
    attribute: &Attribute,
) -> Result<Bytes, AllocError>
    ensures { IfOk result (λ octets. octets ≡ value_octets records.now attribute.now) }
{
    let mut items = Vec::new(alloc);
    if let Some(found) = records.find(&attribute.id) {
        encode_backwards(alloc, &found.syntax, &attribute.value, &mut items)?;
    }
    reverse_from(0, &mut items);
    Ok(Bytes { items })
}

/// An attribute with the written encoding of its value.
pub(crate) fn told(
    alloc: Global,
    records: &AttrRecs,
    attribute: &Attribute,
) -> Result<AttributeValue, AllocError>
    ensures { IfOk result (λ held. held ≡ told records.now attribute.now) }
{
    let id = attribute.id.copy(alloc)?;
    let value = value_octets(alloc, records, attribute)?;
    Ok(AttributeValue { id, value })
}
