//! availabilityStatus of a log that is no longer full: X.721, X.735.

ghost use Rattle.std.specs.Prelude.{◌≡◌, ◌∷◌, [], pos, IfOk, OnOk};
ghost use Rattle.term_model.specs.Modifications.{without_full};
ghost use Rattle.term_values.specs.Typed.TypedValue.{Int, Many};
ghost use Rattle.term_values.specs.Typed.{listed};
ghost use Rattle.object_modifications.specs.Settling.{ends_full_by};
ghost use Rattle.object_modifications.specs.StatusPlaces.{full_taken, full_taken_at, status_places};

use attribute_rules::labels::is_labelled;
use attribute_rules::lookups::syntax_of;
use set_values::without_members;
use std::alloc::{AllocError, Global};
use term_model::{AttrRecs, Attribute};
use term_values::{Oid, Value, ValueForm, Values};

/// logFull, one of the numbers of availabilityStatus: X.721.
const LOG_FULL: i64 = 8;

/// Where the attributes labelled availabilityStatus stand.
pub(crate) fn status_places(
    alloc: Global,
    records: &AttrRecs,
    attributes: &[Attribute],
) -> Result<Vec<usize>, AllocError>
    ensures { IfOk result (λ places. places.items ≡ status_places records.now 0 attributes.now) }
{
    let mut places = Vec::new(alloc);
    for place in 0..attributes.len() {
        if is_labelled(records, b"availabilityStatus", &attributes[place].id) {
            places.push(place)?;
        }
    }
    Ok(places)
}

/// The value { logFull }.
fn full_value(alloc: Global) -> Result<Value, AllocError>
    ensures { IfOk result (λ value. value ≡ Many (listed (Int (pos 8) ∷ []))) }
{
    let mut items = Vec::new(alloc);
    items.push(Value {
        form: ValueForm::Int(LOG_FULL),
    })?;
    Ok(Value {
        form: ValueForm::Many(Values { items }),
    })
}

/// The attribute without logFull, where it is availabilityStatus.
fn without_full(
    alloc: Global,
    records: &AttrRecs,
    attribute: &Attribute,
) -> Result<Attribute, AllocError>
    ensures { IfOk result (λ left. left ≡ without_full records.now attribute.now) }
{
    if !is_labelled(records, b"availabilityStatus", &attribute.id) {
        return attribute.copy(alloc);
    }
    match syntax_of(records, &attribute.id) {
        Some(syntax) => {
            let full = full_value(alloc)?;
            let value = without_members(alloc, syntax, &attribute.value, &full)?;
            let id = attribute.id.copy(alloc)?;
            Ok(Attribute { id, value })
        }
        None => attribute.copy(alloc),
    }
}

/// Takes logFull out of the attribute at a place, where it is availabilityStatus.
fn take_full_at(
    alloc: Global,
    records: &AttrRecs,
    place: usize,
    attributes: &mut Vec<Attribute>,
) -> Result<(), AllocError>
    ensures { OnOk result (attributes.new.items ≡ full_taken_at records.now place attributes.old.items) }
{
    if place < attributes.as_slice().len() {
        let left = without_full(alloc, records, &attributes[place])?;
        attributes[place] = left;
    }
    Ok(())
}

/// Takes logFull out of the attributes at these places.
pub(crate) fn take_full(
    alloc: Global,
    records: &AttrRecs,
    places: &[usize],
    attributes: &mut Vec<Attribute>,
) -> Result<(), AllocError>
    ensures { OnOk result (attributes.new.items ≡ full_taken records.now places.now attributes.old.items) }
{
    for place in places {
        take_full_at(alloc, records, *place, attributes)?;
    }
    Ok(())
}

/// Setting the attribute of a bound log takes logFull away.
pub(crate) fn ends_full(records: &AttrRecs, bound: bool, id: &Oid) -> bool
    ensures { result ≡ ends_full_by records.now bound id.now }
{
    (is_labelled(records, b"maxLogSize", id) || is_labelled(records, b"logFullAction", id)) && bound
}
