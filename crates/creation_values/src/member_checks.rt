//! Which values may stand in an object that is created, and the errors of the members of its list: X.711, section 7.4,
//! m-Create; docs/PROFILE.md, section 15, the eighth step.

ghost use Rattle.std.specs.Prelude.{◌≡◌, [], IfOk};
ghost use Rattle.std.specs.List.{list_all, list_any};
ghost use Rattle.std.specs.Option.{option_copied};
ghost use Rattle.term_model.specs.CreateSteps.{agrees_with_initial, agrees_with_name, given_error};
ghost use Rattle.term_model.specs.CreateSteps.{has_conditional_packages};
ghost use Rattle.term_model.specs.CreateSteps.{is_conditional, is_conditional_in, is_conditional_of, is_good_member};
ghost use Rattle.term_model.specs.CreateSteps.{is_good_value};
ghost use Rattle.term_model.specs.CreateSteps.{is_registered_as};
ghost use Rattle.term_model.specs.CreateSteps.{list_error, may_stand, member_error, octets_of};
ghost use Rattle.term_model.specs.CmisErrors.{invalid_attribute_value, no_such_attribute};
ghost use Rattle.term_model.specs.CreateValues.{gives};
ghost use Rattle.creation_values.specs.Permitting.{permits};

use crate::attribute_tests::{is_packages, property_of};
use crate::identifier_lists::identifiers_in;
use crate::value_sources::{gives, initial_value, registered};
use attribute_rules::is_permitted;
use attribute_rules::lookups::syntax_of;
use ber_values::encode_into;
use class_packages::{classes_above, is_among};
use result_contents::errors::{invalid_attribute_value, no_such_attribute};
use std::alloc::{AllocError, Global};
use term_model::{ClassRec, Creation, Given, PackageRec, Property, Set, StepError};
use term_values::{Oid, Value};

/// The most octets of a value.
const MOST_VALUE: usize = 8192;

/// The number of the step that tries the list of values.
const LIST_STEP: u32 = 8;

/// The octets of an attribute's value.
pub fn octets_of(
    alloc: Global,
    schema: &Set,
    id: &Oid,
    value: &Value,
) -> Result<Vec<u8>, AllocError>
    ensures { IfOk result (λ octets. octets.items ≡ octets_of schema.now id.now value.now) }
{
    let mut octets = Vec::new(alloc);
    if let Some(syntax) = syntax_of(&schema.attributes, id) {
        encode_into(alloc, syntax, value, &mut octets)?;
    }
    Ok(octets)
}

/// Whether the types of PERMITTED VALUES, where there are some, permit a value.
fn is_permitted_by(
    alloc: Global,
    property: Option<&Property>,
    value: &Value,
) -> Result<bool, AllocError>
    ensures { IfOk result (λ found. found ≡ permits (option_copied property.entry) value.now) }
{
    match property {
        Some(property) => is_permitted(alloc, &property.permitted, value),
        None => Ok(true),
    }
}

/// Whether a value may stand: it is permitted, and isn't too long.
pub fn may_stand(
    alloc: Global,
    schema: &Set,
    class: &Oid,
    id: &Oid,
    value: &Value,
) -> Result<bool, AllocError>
    ensures { IfOk result (λ found. found ≡ may_stand schema.now class.now id.now value.now) }
{
    let permitted = is_permitted_by(alloc, property_of(schema, class, id), value)?;
    let octets = octets_of(alloc, schema, id, value)?;
    Ok(permitted && octets.as_slice().len() <= MOST_VALUE)
}

/// Whether it is the value in the name, where the object is named by the attribute.
fn agrees_with_name(
    alloc: Global,
    schema: &Set,
    creation: &Creation,
    id: &Oid,
    value: &Value,
) -> Result<bool, AllocError>
    ensures { IfOk result (λ found. found ≡ agrees_with_name schema.now creation.now id.now value.now) }
{
    let octets = octets_of(alloc, schema, id, value)?;
    Ok(creation.named.attribute != *id || octets.as_slice() == creation.named.value.as_slice())
}

/// Whether it is the INITIAL VALUE, where one is stated.
fn agrees_with_initial(schema: &Set, creation: &Creation, id: &Oid, value: &Value) -> bool
    ensures { result ≡ agrees_with_initial schema.now creation.now id.now value.now }
{
    match initial_value(schema, &creation.class, id) {
        Some(initial) => initial.is_same(value),
        None => true,
    }
}

/// Whether a package is registered under the identifier.
fn is_registered_as(id: &Oid, of_package: &PackageRec) -> bool
    ensures { result ≡ is_registered_as id.now of_package.now }
{
    match &of_package.id {
        Some(own) => own == id,
        None => false,
    }
}

/// Whether a conditional package of a class has the identifier.
fn is_conditional_of(id: &Oid, of_class: &ClassRec) -> bool
    ensures { result ≡ is_conditional_of id.now of_class.now }
{
    for of_package in &of_class.conditional.items {
        if is_registered_as(id, of_package) {
            return true;
        }
    }
    false
}

/// Whether a conditional package of the class with this identifier, where that has a record, has the identifier.
fn is_conditional_in(schema: &Set, id: &Oid, class: &Oid) -> bool
    ensures { result ≡ is_conditional_in schema.now id.now class.now }
{
    match schema.classes.find(class) {
        Some(of_class) => is_conditional_of(id, of_class),
        None => false,
    }
}

/// Whether one of these classes has a conditional package of this identifier.
fn is_conditional(schema: &Set, classes: &[Oid], id: &Oid) -> bool
    ensures { result ≡ list_any (is_conditional_in schema.now id.now) classes.now }
{
    for class in classes {
        if is_conditional_in(schema, id, class) {
            return true;
        }
    }
    false
}

/// Whether each of these identifiers is that of a conditional package of the class.
fn are_conditional(
    alloc: Global,
    schema: &Set,
    class: &Oid,
    ids: &[Oid],
) -> Result<bool, AllocError>
    ensures { IfOk result (λ found. found ≡ list_all (is_conditional schema.now class.now) ids.now) }
{
    let above = classes_above(alloc, &schema.classes, class)?;
    for id in ids {
        if !is_conditional(schema, &above.items, id) {
            return Ok(false);
        }
    }
    Ok(true)
}

/// Whether a value that lists packages has conditional ones of the class alone.
fn has_conditional_packages(
    alloc: Global,
    schema: &Set,
    creation: &Creation,
    id: &Oid,
    value: &Value,
) -> Result<bool, AllocError>
    ensures { IfOk result (λ found. found
        ≡ has_conditional_packages schema.now creation.now id.now value.now) }
{
    if !is_packages(schema, &creation.class, id) {
        return Ok(true);
    }
    let ids = identifiers_in(alloc, value)?;
    are_conditional(alloc, schema, &creation.class, &ids.items)
}

/// Whether the value of a member of the list may stand in the object.
fn is_good_value(
    alloc: Global,
    schema: &Set,
    creation: &Creation,
    id: &Oid,
    value: &Value,
) -> Result<bool, AllocError>
    ensures { IfOk result (λ found. found ≡ is_good_value schema.now creation.now id.now value.now) }
{
    let stands = may_stand(alloc, schema, &creation.class, id, value)?;
    let named = agrees_with_name(alloc, schema, creation, id, value)?;
    let initial = agrees_with_initial(schema, creation, id, value);
    let conditional = has_conditional_packages(alloc, schema, creation, id, value)?;
    Ok(stands && named && initial && conditional)
}

/// Whether one of these members gives the attribute.
fn is_given(before: &[Given], id: &Oid) -> bool
    ensures { result ≡ list_any (gives id.now) before.now }
{
    for given in before {
        if gives(id, given) {
            return true;
        }
    }
    false
}

/// Whether a member of the list, which has these before it, is good.
fn is_good_member(
    alloc: Global,
    schema: &Set,
    creation: &Creation,
    before: &[Given],
    id: &Oid,
    given: &Given,
) -> Result<bool, AllocError>
    ensures { IfOk result (λ found. found
        ≡ is_good_member schema.now creation.now before.now id.now given.now) }
{
    if is_given(before, id) {
        return Ok(false);
    }
    match &given.value {
        Some(value) => is_good_value(alloc, schema, creation, id, value),
        None => Ok(false),
    }
}

/// noSuchAttribute of a member of the list.
fn unknown_member(alloc: Global, given: &Given) -> Result<StepError, AllocError>
    ensures { IfOk result (λ error. error ≡ record { step = 8; error = no_such_attribute given.now.id }) }
{
    let error = no_such_attribute(alloc, &given.id)?;
    Ok(StepError {
        step: LIST_STEP,
        error,
    })
}

/// invalidAttributeValue of a member of the list.
fn invalid_member(alloc: Global, given: &Given) -> Result<StepError, AllocError>
    ensures { IfOk result (λ error. error
        ≡ record { step = 8; error = invalid_attribute_value given.now.id given.now.raw }) }
{
    let error = invalid_attribute_value(alloc, &given.id, given.raw.as_slice())?;
    Ok(StepError {
        step: LIST_STEP,
        error,
    })
}

/// The error of a member of the list, whose attribute is registered.
fn member_error(
    alloc: Global,
    schema: &Set,
    creation: &Creation,
    attributes: &[Oid],
    before: &[Given],
    given: &Given,
    id: &Oid,
) -> Result<Option<StepError>, AllocError>
    ensures { IfOk result (λ error. error
        ≡ member_error schema.now creation.now attributes.now before.now given.now id.now) }
{
    if !is_among(attributes, id) {
        return Ok(Some(unknown_member(alloc, given)?));
    }
    if is_good_member(alloc, schema, creation, before, id, given)? {
        return Ok(None);
    }
    Ok(Some(invalid_member(alloc, given)?))
}

/// The error of a member of the list.
fn given_error(
    alloc: Global,
    schema: &Set,
    creation: &Creation,
    attributes: &[Oid],
    before: &[Given],
    given: &Given,
) -> Result<Option<StepError>, AllocError>
    ensures { IfOk result (λ error. error
        ≡ given_error schema.now creation.now attributes.now before.now given.now) }
{
    match registered(&given.id) {
        Some(id) => member_error(alloc, schema, creation, attributes, before, given, id),
        None => Ok(Some(unknown_member(alloc, given)?)),
    }
}

/// The error of the first member of the list that has one.
pub fn list_error(
    alloc: Global,
    schema: &Set,
    creation: &Creation,
    attributes: &[Oid],
) -> Result<Option<StepError>, AllocError>
    ensures { IfOk result (λ error. error
        ≡ list_error schema.now creation.now attributes.now [] creation.now.given) }
{
    let list = creation.given.items.as_slice();
    for (at, given) in list.iter().enumerate() {
        let error = given_error(alloc, schema, creation, attributes, &list[..at], given)?;
        if error.is_some() {
            return Ok(error);
        }
    }
    Ok(None)
}
