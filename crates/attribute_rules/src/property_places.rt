//! Where the properties of a class stand among its others, by attribute: X.722, section 8.4. Who looks for those of
//! many attributes finds them so in a time that grows with the logarithm of their number.

ghost use Rattle.std.specs.Prelude.{◌≡◌, ℕ, List, IfOk, OnOk, map};
ghost use Rattle.std.specs.BTreeMap.{get};
ghost use Rattle.std.specs.Cmp.Lexicographic.{slice_cmp};
ghost use Rattle.std.specs.Option.{option_copied};
ghost use Rattle.std.specs.Ordering.{nat_cmp};
ghost use Rattle.term_model.specs.declared.packages.Property.{Property};
ghost use Rattle.term_model.specs.ClassAttributes.{property_among, property_of};
ghost use Rattle.term_model.specs.Places.{HasPlaces, place_with};
ghost use Rattle.attribute_rules.specs.PropertyPlaces.{HasPropertyPlaces, attributes_of};

use std::alloc::{AllocError, Global};
use std::collections::BTreeMap;
use term_model::{Property, Set};
use term_values::Oid;

/// The places of properties in their list, by attribute.
pub type PropertyPlaces = BTreeMap<Oid, usize>;

/// Adds the place of a property, where no other one of its attribute has one yet.
fn add_place(
    alloc: Global,
    id: &Oid,
    place: usize,
    places: &mut PropertyPlaces,
) -> Result<(), AllocError>
    ensures { OnOk result ((q : List ℕ) → get (slice_cmp nat_cmp) places.new q
        ≡ place_with id.now place q (get (slice_cmp nat_cmp) places.old q)) }
{
    if !places.contains_key(id) {
        let id = id.copy(alloc)?;
        places.insert(id, place)?;
    }
    Ok(())
}

/// The places of these properties.
fn places_among(alloc: Global, properties: &[Property]) -> Result<PropertyPlaces, AllocError>
    ensures { IfOk result (λ places. HasPlaces places (attributes_of properties.now)) }
{
    let mut places = BTreeMap::new(alloc);
    for place in 0..properties.len() {
        add_place(alloc, &properties[place].attribute, place, &mut places)?;
    }
    Ok(places)
}

/// The places of the properties of a class. This takes p log p comparisons of identifiers for p properties.
pub fn property_places(
    alloc: Global,
    schema: &Set,
    class: &Oid,
) -> Result<PropertyPlaces, AllocError>
    ensures { IfOk result (λ places. HasPropertyPlaces schema.now class.now places) }
{
    match schema.classes.find(class) {
        Some(of_class) => places_among(alloc, of_class.properties.items.as_slice()),
        None => Ok(BTreeMap::new(alloc)),
    }
}

/// The properties of an attribute among these, by their places.
fn property_among<'a>(
    properties: &'a [Property],
    places: &PropertyPlaces,
    id: &Oid,
) -> Option<&'a Property>
    ensures { HasPlaces places.now (attributes_of properties.now)
        → option_copied result ≡ property_among properties.now id.now }
{
    match places.get(id) {
        Some(place) => properties.get(*place),
        None => None,
    }
}

/// The properties that an attribute has in a class, by the places of those of the class.
pub fn property_of<'a>(
    schema: &'a Set,
    places: &PropertyPlaces,
    class: &Oid,
    id: &Oid,
) -> Option<&'a Property>
    ensures { HasPropertyPlaces schema.now class.now places.now
        → option_copied result ≡ property_of schema.now class.now id.now }
{
    match schema.classes.find(class) {
        Some(of_class) => property_among(of_class.properties.items.as_slice(), places, id),
        None => None,
    }
}
