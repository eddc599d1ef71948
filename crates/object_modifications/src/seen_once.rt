//! What is seen once of an object that is set, and of its class, before the first modification.

ghost use Rattle.std.specs.Prelude.{IfOk};
ghost use Rattle.object_modifications.specs.Trying.{IsSeen};

use crate::log_status::status_places;
use attribute_rules::is_bound_log;
use attribute_rules::places::are_rising;
use attribute_rules::property_places::{PropertyPlaces, property_places};
use std::alloc::{AllocError, Global};
use term_model::{Object, Set};

/// What is seen once: modifications change none of it.
#[derive(Drop)]
pub(crate) struct Seen {
    /// The object is a log.
    pub(crate) bound: bool,
    /// The identifiers of its attributes rise.
    pub(crate) rising: bool,
    /// Where the properties of its class stand.
    pub(crate) properties: PropertyPlaces,
    /// Where its attributes labelled availabilityStatus stand.
    pub(crate) statuses: Vec<usize>,
}

/// What is seen of an object.
pub(crate) fn seen_of(alloc: Global, schema: &Set, object: &Object) -> Result<Seen, AllocError>
    ensures { IfOk result (λ seen. IsSeen schema.now object.now seen) }
{
    let attributes = object.attrs.items.as_slice();
    let bound = is_bound_log(alloc, schema, &object.class)?;
    let rising = are_rising(attributes);
    let properties = property_places(alloc, schema, &object.class)?;
    let statuses = status_places(alloc, &schema.attributes, attributes)?;
    Ok(Seen {
        bound,
        rising,
        properties,
        statuses,
    })
}
