//! The size of an object, as the sum of what its attributes take: docs/PROFILE.md.

ghost use Rattle.std.specs.Prelude.{◌≡◌, ◌<◌, ◌≤◌, true, false, IfOk};
ghost use Rattle.term_model.specs.BoundClasses.{object_size};
ghost use Rattle.term_values.specs.Lengths.{counted};
ghost use Rattle.attribute_rules.specs.Weights.{is_within, weight, weights};

use crate::attribute_octets::attribute_length;
use crate::bound_logs::is_bound_log;
use crate::labels::tells_of_records;
use std::alloc::{AllocError, Global};
use term_model::object::MOST_OBJECT;
use term_model::{AttrRecs, Attribute, Object, Set};
use term_values::Tag;
use term_values::leaf_lengths::{plus, with_header};

/// The octets that an attribute adds to its object.
pub fn weight(
    alloc: Global,
    records: &AttrRecs,
    bound: bool,
    attribute: &Attribute,
) -> Result<u64, AllocError>
    ensures { IfOk result (λ size. size ≡ weight records.now bound attribute.now) }
{
    if bound && tells_of_records(records, &attribute.id) {
        return Ok(0);
    }
    let size = attribute_length(alloc, records, attribute)?;
    Ok(size as u64)
}

/// The octets of all attributes, or the greatest number where there are more.
pub fn weights(
    alloc: Global,
    records: &AttrRecs,
    bound: bool,
    attributes: &[Attribute],
) -> Result<u64, AllocError>
    ensures { IfOk result (λ size. size ≡ counted (weights records.now bound attributes.now)) }
{
    let mut total = 0;
    for i in (0..attributes.len()).rev() {
        total = plus(weight(alloc, records, bound, &attributes[i])?, total);
    }
    Ok(total)
}

/// A SET with so many contents octets is not too long for an object.
pub fn is_within(contents: u64) -> bool
    ensures { result ≡ is_within contents }
{
    contents <= MOST_OBJECT as u64 && with_header(true, Tag::SET, contents) <= MOST_OBJECT as u64
}

/// Whether an object is not longer than 16,384 octets, the most that an object has: its attributes, but for those of a
/// log that tell of its records, in their written encoding as SET OF Attribute.
pub fn is_small(alloc: Global, schema: &Set, object: &Object) -> Result<bool, AllocError>
    ensures small { IfOk result (λ small. small ≡ true → object_size schema.now object.now ≤ 16384) }
    ensures large { IfOk result (λ small. small ≡ false → 16384 < object_size schema.now object.now) }
{
    let bound = is_bound_log(alloc, schema, &object.class)?;
    let size = weights(
        alloc,
        &schema.attributes,
        bound,
        object.attrs.items.as_slice(),
    )?;
    Ok(is_within(size))
}
