//! What an attribute adds to its object, by the octets of its value: docs/PROFILE.md, section 15.

ghost use Rattle.std.specs.Prelude.{◌≡◌, ◌&&◌, IfOk, false};
ghost use Rattle.term_values.specs.Der.{encoded};
ghost use Rattle.term_values.specs.Lengths.{counted, octet_count};
ghost use Rattle.term_values.specs.Oid.{oid_contents};
ghost use Rattle.term_model.specs.declared.object.Attribute.{Attribute};
ghost use Rattle.term_model.specs.BoundClasses.{tells_of_records};
ghost use Rattle.term_model.specs.GetRequest.{global_form};
ghost use Rattle.term_model.specs.ObjectOperation.{value_octets};
ghost use Rattle.attribute_rules.specs.Weights.{weight};

use attribute_rules::labels::tells_of_records;
use ber_tree::value_writing::write_oid_backwards;
use result_contents::information::GLOBAL_FORM;
use std::alloc::{AllocError, Global};
use term_model::AttrRecs;
use term_values::leaf_lengths::{plus, with_header};
use term_values::{Oid, Tag};

/// How many octets an identifier takes in an Attribute.
pub(crate) fn named_length(alloc: Global, id: &Oid) -> Result<u64, AllocError>
    ensures { IfOk result (λ size. size ≡ octet_count (encoded false global_form (oid_contents id.now))) }
{
    let mut items = Vec::new(alloc);
    write_oid_backwards(GLOBAL_FORM, id, &mut items)?;
    Ok(items.as_slice().len() as u64)
}

/// Whether an attribute counts nothing: those of a bound log that tell of its records.
fn is_silent(records: &AttrRecs, bound: bool, id: &Oid) -> bool
    ensures { result ≡ (bound && tells_of_records records.now id.now) }
{
    bound && tells_of_records(records, id)
}

/// The octets that an attribute adds to its object, from those of its identifier and of its value.
pub(crate) fn weight_by(records: &AttrRecs, bound: bool, id: &Oid, named: u64, value: u64) -> u64
    ensures { (attribute : Attribute) → attribute.id ≡ id.now
        → named ≡ octet_count (encoded false global_form (oid_contents id.now))
        → value ≡ octet_count (value_octets records.now attribute)
        → result ≡ counted (weight records.now bound attribute) }
{
    if is_silent(records, bound, id) {
        return 0;
    }
    with_header(true, Tag::SEQUENCE, plus(named, value))
}
