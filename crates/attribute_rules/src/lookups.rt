//! What the records of a schema have under an identifier: X.722, section 8.4.

ghost use Rattle.std.specs.Prelude.{◌≡◌, ◌++◌, ◌||◌, None, false, option_and_then};
ghost use Rattle.std.specs.Option.{option_copied, option_map_or};
ghost use Rattle.term_model.specs.ClassAttributes.{property_of, syntax_of};
ghost use Rattle.term_model.specs.Comparing.{is_same_oid};
ghost use Rattle.term_model.specs.Modifiable.{is_filled, is_operator, last_attribute, lets_modify, modifiable};
ghost use Rattle.term_model.specs.Modifiable.{naming_attribute};
ghost use Rattle.attribute_rules.specs.PropertyPlaces.{HasPropertyPlaces};

use crate::labels::is_filled;
use crate::property_places::{PropertyPlaces, property_of};
use term_model::request::{ADD_VALUES, REMOVE_VALUES, REPLACE, SET_TO_DEFAULT};
use term_model::{AttrRecs, Property, Rdn, Set};
use term_values::{Oid, Syntax};

/// The syntax of an attribute's values.
pub fn syntax_of<'a>(records: &'a AttrRecs, id: &Oid) -> Option<&'a Syntax>
    ensures { option_copied result ≡ syntax_of records.now id.now }
{
    match records.find(id) {
        Some(of_attribute) => Some(&of_attribute.syntax),
        None => None,
    }
}

/// The operator is one of those that there are.
pub fn is_operator(operator: i64) -> bool
    ensures { result ≡ is_operator operator }
{
    REPLACE <= operator && operator <= SET_TO_DEFAULT
}

/// Managers may modify an attribute with these properties by the operator.
fn lets_modify(operator: i64, property: &Property) -> bool
    ensures { result ≡ lets_modify operator property.now }
{
    if operator == REPLACE {
        return property.replace;
    }
    if operator == ADD_VALUES {
        return property.add;
    }
    if operator == REMOVE_VALUES {
        return property.remove;
    }
    property.set_to_default && property.default.is_some()
}

/// The attribute of the last part of a name, where it has parts.
fn last_attribute(parts: &[Rdn]) -> Option<&Oid>
    ensures { option_copied result ≡ last_attribute parts.now }
{
    match parts.split_last() {
        Some((last, _)) => Some(&last.attribute),
        None => None,
    }
}

/// The attribute by which an object is named: that of the last part of its whole distinguished name.
fn naming_attribute<'a>(schema: &'a Set, name: &'a [Rdn]) -> Option<&'a Oid>
    ensures { option_copied result ≡ naming_attribute schema.now name.now }
{
    match last_attribute(name) {
        Some(attribute) => Some(attribute),
        None => last_attribute(schema.system.parts.as_slice()),
    }
}

/// The attribute is the one by which the object is named.
fn names_object(schema: &Set, name: &[Rdn], id: &Oid) -> bool
    ensures { result ≡ option_map_or (is_same_oid id.now) (naming_attribute schema.now name.now) false }
{
    match naming_attribute(schema, name) {
        Some(attribute) => id == attribute,
        None => false,
    }
}

/// The properties by which managers may modify the attribute of an object of the class by the operator. `places` are
/// those of the properties of the class.
pub fn modifiable<'a>(
    schema: &'a Set,
    places: &PropertyPlaces,
    name: &[Rdn],
    class: &Oid,
    operator: i64,
    id: &Oid,
) -> Option<&'a Property>
    ensures { HasPropertyPlaces schema.now class.now places.now
        → option_copied result ≡ modifiable schema.now name.now class.now operator id.now }
{
    if names_object(schema, name, id) || is_filled(&schema.attributes, id) {
        return None;
    }
    let property = property_of(schema, places, class, id)?;
    if lets_modify(operator, property) {
        Some(property)
    } else {
        None
    }
}
