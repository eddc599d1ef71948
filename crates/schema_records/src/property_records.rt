//! The properties of attributes that packages state, and those that are joined for a class (X.722, section 8.4).

ghost use Rattle.std.specs.Prelude.{◌≡◌, ◌++◌, All, IfOk, OnOk, option_to_list};
ghost use Rattle.joined_properties.specs.declared.statement.Statement.{Statement as StatementTerm};
ghost use Rattle.joined_statements.specs.HeldValues.{value_at};
ghost use Rattle.linked_types.specs.PartIdentifiers.{AreEach};
ghost use Rattle.schema_records.specs.AddedRecords.{Adds};
ghost use Rattle.schema_records.specs.PropertyRecords.{AreAttributePlaces, AreFoundAt, AreJoinedProperties};
ghost use Rattle.schema_records.specs.PropertyRecords.{IsJoinedProperty, IsPropertyOf, held_value, type_name};
ghost use Rattle.schema_records.specs.PropertyRecords.{type_syntax};
ghost use Rattle.schema_records.specs.RegisteredParts.{IsAttributePlace};

use joined_properties::Statement;
use joined_statements::{AssignedValues, Held, Joined, JoinedAttributes};
use linked_types::ClosingParts;
use std::alloc::AllocError;
use std::collections::BTreeSet;
use term_model::{Properties, Property, Syntaxes, TypeNames};
use term_values::{Bytes, Oid, Syntax, Value};

/// The value of an assignment.
fn value_at(parts: &ClosingParts, number: usize) -> Result<Option<Value>, AllocError>
    ensures { IfOk result (λ value. value ≡ value_at parts.now.values.now number) }
{
    let values = AssignedValues {
        items: parts.values,
    };
    match values.value(number) {
        Some(value) => Ok(Some(value.copy(parts.alloc)?)),
        None => Ok(None),
    }
}

/// The value that is held.
fn held_value(parts: &ClosingParts, held: Held) -> Result<Option<Value>, AllocError>
    ensures { IfOk result (λ value. value ≡ held_value parts.now.values.now held) }
{
    match held {
        Held::One(number) => value_at(parts, number),
        _ => Ok(None),
    }
}

/// Appends the syntax of the type at a place, where it has one.
fn push_syntax(
    parts: &ClosingParts,
    place: usize,
    items: &mut Vec<Syntax>,
) -> Result<(), AllocError>
    ensures { OnOk result (items.new.items
        ≡ items.old.items ++ option_to_list (type_syntax parts.now.table.now place)) }
{
    match parts.table.syntax(Some(place)) {
        Some(syntax) => {
            items.push(syntax.copy(parts.alloc)?)?;
            Ok(())
        }
        None => Ok(()),
    }
}

/// The syntaxes of types, by their places.
fn syntaxes_at(parts: &ClosingParts, places: &BTreeSet<usize>) -> Result<Syntaxes, AllocError>
    ensures { IfOk result (AreFoundAt (type_syntax parts.now.table.now) places.now) }
{
    let mut items = Vec::new(parts.alloc);
    for place in places.iter() {
        push_syntax(parts, *place, &mut items)?;
    }
    Ok(Syntaxes { items })
}

/// Appends the name of the type at a place.
fn push_name(parts: &ClosingParts, place: usize, items: &mut Vec<Bytes>) -> Result<(), AllocError>
    ensures { OnOk result (items.new.items
        ≡ items.old.items ++ option_to_list (type_name parts.now.table.now place)) }
{
    match parts.table.named(place) {
        Some(named) => {
            items.push(named.name.copy(parts.alloc)?)?;
            Ok(())
        }
        None => Ok(()),
    }
}

/// The names of types, by their places.
fn names_at(parts: &ClosingParts, places: &BTreeSet<usize>) -> Result<TypeNames, AllocError>
    ensures { IfOk result (AreFoundAt (type_name parts.now.table.now) places.now) }
{
    let mut items = Vec::new(parts.alloc);
    for place in places.iter() {
        push_name(parts, *place, &mut items)?;
    }
    Ok(TypeNames { items })
}

/// The types that permit values, and the names of those that require some.
fn joined_types(parts: &ClosingParts, joined: &Joined) -> Result<(Syntaxes, TypeNames), AllocError>
    ensures permitted { IfOk result (λ both. AreFoundAt (type_syntax parts.now.table.now) joined.now.permitted both.0) }
    ensures required { IfOk result (λ both. AreFoundAt (type_name parts.now.table.now) joined.now.required both.1) }
{
    let permitted = syntaxes_at(parts, &joined.permitted)?;
    let required = names_at(parts, &joined.required)?;
    Ok((permitted, required))
}

/// The default, and the initial value.
fn held_values(
    parts: &ClosingParts,
    joined: &Joined,
) -> Result<(Option<Value>, Option<Value>), AllocError>
    ensures default { IfOk result (λ both. both.0 ≡ held_value parts.now.values.now joined.now.default) }
    ensures initial { IfOk result (λ both. both.1 ≡ held_value parts.now.values.now joined.now.initial) }
{
    let default = held_value(parts, joined.default)?;
    let initial = held_value(parts, joined.initial)?;
    Ok((default, initial))
}

/// What is joined of the attribute with this identifier.
fn joined_property(
    parts: &ClosingParts,
    attribute: &Oid,
    joined: &Joined,
) -> Result<Property, AllocError>
    ensures attribute { IfOk result (λ x. x.attribute ≡ attribute.now) }
    ensures joined { IfOk result (IsPropertyOf parts.now.table.now parts.now.values.now joined.now) }
{
    let attribute = attribute.copy(parts.alloc)?;
    let (permitted, required) = joined_types(parts, joined)?;
    let (default, initial) = held_values(parts, joined)?;
    Ok(Property {
        attribute,
        get: joined.get,
        replace: joined.replace,
        add: joined.add,
        remove: joined.remove,
        set_to_default: joined.set_to_default,
        default,
        initial,
        permitted,
        required,
    })
}

/// Appends what is joined of the attribute at a place, where it is registered.
fn push_property(
    parts: &ClosingParts,
    attribute: usize,
    joined: &Joined,
    items: &mut Vec<Property>,
) -> Result<(), AllocError>
    ensures { OnOk result (IsAttributePlace parts.now.linked.now attribute →
        Adds (IsJoinedProperty parts.now.linked.now parts.now.table.now parts.now.values.now attribute) joined.now
        items.old.items items.new.items) }
{
    match parts.attribute_id(attribute) {
        Some(id) => {
            items.push(joined_property(parts, id, joined)?)?;
            Ok(())
        }
        None => Ok(()),
    }
}

/// The properties of a class, by the order of the attributes' templates.
pub(crate) fn joined_properties(
    parts: &ClosingParts,
    attributes: &JoinedAttributes,
) -> Result<Properties, AllocError>
    ensures { IfOk result (λ xs. AreAttributePlaces parts.now.linked.now attributes.now →
        AreJoinedProperties parts.now.linked.now parts.now.table.now parts.now.values.now attributes.now xs) }
{
    let mut items = Vec::new(parts.alloc);
    for (attribute, joined) in attributes.iter() {
        push_property(parts, *attribute, joined, &mut items)?;
    }
    Ok(Properties { items })
}

/// What a package states of attributes.
pub(crate) fn stated_properties(
    parts: &ClosingParts,
    statements: &[Statement],
) -> Result<Properties, AllocError>
    ensures { IfOk result (λ xs. All (λ statement. IsAttributePlace parts.now.linked.now statement.attribute)
        statements.now → AreEach (λ (statement : StatementTerm) x. IsJoinedProperty parts.now.linked.now
        parts.now.table.now parts.now.values.now statement.attribute statement.joined x) statements.now xs) }
{
    let mut items = Vec::new(parts.alloc);
    for statement in statements {
        push_property(parts, statement.attribute, &statement.joined, &mut items)?;
    }
    Ok(Properties { items })
}
