//! From where the attributes of an object that is created have their values: X.711, section 7.4, m-Create; X.722,
//! section 8.4; docs/PROFILE.md, section 15.

ghost use Rattle.std.specs.Prelude.{◌≡◌, IfOk, find, option_and_then};
ghost use Rattle.std.specs.Option.{option_copied, unwrap_or};
ghost use Rattle.term_values.specs.Typed.TypedValue.{Many};
ghost use Rattle.term_values.specs.Typed.TypedValues.{Nothing};
ghost use Rattle.term_model.specs.CreateValues.{default_value, gives, initial_value, listed_value};
ghost use Rattle.term_model.specs.CreateValues.{named_value, or_else, other_value, stated_value};
ghost use Rattle.term_model.specs.CreateValues.{taken_value, value_of_octets, written_value};
ghost use Rattle.term_values.specs.Syntaxes.{TypeSyntax};
ghost use Rattle.term_model.specs.Creation.{registered};

use crate::attribute_tests::{
    is_class_choice, is_class_identifier, is_counter, is_name_binding, is_package_list, property_of,
};
use crate::identifier_lists::{binding_value, class_choice_value, identifier, no_identifiers};
use crate::octet_values::value_of_octets;
use attribute_rules::lookups::syntax_of;
use std::alloc::{AllocError, Global};
use term_model::{Creation, Given, IdRef, Outline, Rdn, Set};
use term_values::{Bytes, Oid, Syntax, Value};

/// The identifier under which something is registered; a number of the manager's own is none.
pub fn registered(id: &IdRef) -> Option<&Oid>
    ensures { option_copied result ≡ registered id.now }
{
    match id {
        IdRef::Global(oid) => Some(oid),
        IdRef::Local(_) => None,
    }
}

/// Whether a member of a list gives the attribute.
pub fn gives(id: &Oid, given: &Given) -> bool
    ensures { result ≡ gives id.now given.now }
{
    match registered(&given.id) {
        Some(own) => own == id,
        None => false,
    }
}

/// The first member of a list that gives the attribute.
fn giver<'a>(given: &'a [Given], id: &Oid) -> Option<&'a Given>
    ensures { option_copied result ≡ find (gives id.now) given.now }
{
    for one in given {
        if gives(id, one) {
            return Some(one);
        }
    }
    None
}

/// The value that the list gives.
pub fn listed_value<'a>(creation: &'a Creation, id: &Oid) -> Option<&'a Value>
    ensures { option_copied result ≡ listed_value creation.now id.now }
{
    match giver(&creation.given.items, id) {
        Some(given) => given.value.as_ref(),
        None => None,
    }
}

/// The value that octets have in a syntax, where there is one.
fn value_in(
    alloc: Global,
    syntax: Option<&Syntax>,
    octets: &Bytes,
) -> Result<Option<Value>, AllocError>
    ensures { IfOk result (λ value. value
        ≡ option_and_then (λ (found : TypeSyntax). value_of_octets found octets.now) (option_copied syntax.entry)) }
{
    match syntax {
        Some(syntax) => {
            let value = value_of_octets(alloc, syntax, octets.as_slice())?;
            Ok(value)
        }
        None => Ok(None),
    }
}

/// The value that the name gives to the attribute by which the object is named.
pub fn named_value(alloc: Global, schema: &Set, named: &Rdn) -> Result<Option<Value>, AllocError>
    ensures { IfOk result (λ value. value ≡ named_value schema.now named.now) }
{
    let syntax = syntax_of(&schema.attributes, &named.attribute);
    let value = value_in(alloc, syntax, &named.value)?;
    Ok(value)
}

/// The value that is taken over from a reference object.
fn taken_value<'a>(creation: &'a Creation, id: &Oid) -> Option<&'a Value>
    ensures { option_copied result ≡ taken_value creation.now id.now }
{
    for held in &creation.taken.items {
        if held.id == *id {
            return Some(&held.value);
        }
    }
    None
}

/// INITIAL VALUE
pub fn initial_value<'a>(schema: &'a Set, class: &Oid, id: &Oid) -> Option<&'a Value>
    ensures { option_copied result ≡ initial_value schema.now class.now id.now }
{
    match property_of(schema, class, id) {
        Some(property) => property.initial.as_ref(),
        None => None,
    }
}

/// DEFAULT VALUE
fn default_value<'a>(schema: &'a Set, class: &Oid, id: &Oid) -> Option<&'a Value>
    ensures { option_copied result ≡ default_value schema.now class.now id.now }
{
    match property_of(schema, class, id) {
        Some(property) => property.default.as_ref(),
        None => None,
    }
}

/// The value that the reference object or the class gives.
fn stated_value<'a>(schema: &'a Set, creation: &'a Creation, id: &Oid) -> Option<&'a Value>
    ensures { option_copied result ≡ stated_value schema.now creation.now id.now }
{
    match taken_value(creation, id) {
        Some(value) => Some(value),
        None => match initial_value(schema, &creation.class, id) {
            Some(value) => Some(value),
            None => default_value(schema, &creation.class, id),
        },
    }
}

/// A copy of a value, where there is one.
fn copied(alloc: Global, value: Option<&Value>) -> Result<Option<Value>, AllocError>
    ensures { IfOk result (λ copy. copy ≡ option_copied value.entry) }
{
    match value {
        Some(value) => Ok(Some(value.copy(alloc)?)),
        None => Ok(None),
    }
}

/// The value of an attribute that the list doesn't give.
fn other_value(
    alloc: Global,
    schema: &Set,
    creation: &Creation,
    id: &Oid,
) -> Result<Option<Value>, AllocError>
    ensures { IfOk result (λ value. value ≡ other_value schema.now creation.now id.now) }
{
    if creation.named.attribute == *id {
        named_value(alloc, schema, &creation.named)
    } else {
        copied(alloc, stated_value(schema, creation, id))
    }
}

/// The value that the list gives, or else that from elsewhere.
pub fn source_value(
    alloc: Global,
    schema: &Set,
    creation: &Creation,
    id: &Oid,
) -> Result<Option<Value>, AllocError>
    ensures { IfOk result (λ value. value
        ≡ or_else (listed_value creation.now id.now) (other_value schema.now creation.now id.now)) }
{
    match listed_value(creation, id) {
        Some(value) => Ok(Some(value.copy(alloc)?)),
        None => other_value(alloc, schema, creation, id),
    }
}

/// The packages that the list names.
fn packages_value(alloc: Global, creation: &Creation, id: &Oid) -> Result<Value, AllocError>
    ensures { IfOk result (λ value. value ≡ unwrap_or (listed_value creation.now id.now) (Many Nothing)) }
{
    match listed_value(creation, id) {
        Some(value) => value.copy(alloc),
        None => Ok(no_identifiers(alloc)),
    }
}

/// The value that the agent itself writes.
pub fn written_value(
    alloc: Global,
    schema: &Set,
    creation: &Creation,
    outline: &Outline,
    id: &Oid,
) -> Result<Option<Value>, AllocError>
    ensures { IfOk result (λ value. value ≡ written_value schema.now creation.now outline.now id.now) }
{
    if is_class_identifier(schema, id) {
        Ok(Some(identifier(creation.class.copy(alloc)?)))
    } else if is_class_choice(schema, id) {
        Ok(Some(class_choice_value(alloc, &creation.class)?))
    } else if is_name_binding(schema, id) {
        Ok(Some(binding_value(alloc, &creation.binding)?))
    } else if is_package_list(schema, id) {
        Ok(Some(packages_value(alloc, creation, id)?))
    } else if is_counter(schema, outline.bound_log, id) {
        Ok(Some(Value::integer(0)))
    } else {
        Ok(None)
    }
}
