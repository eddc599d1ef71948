//! The values of the attributes of an object that is created: X.711, section 7.4, m-Create; docs/PROFILE.md, section
//! 15.

ghost use Rattle.std.specs.Prelude.{◌≡◌, IfOk, OnOk};
ghost use Rattle.std.specs.Option.{option_map};
ghost use Rattle.term_values.specs.Typed.{listed};
ghost use Rattle.term_model.specs.CreateValues.{created_value, is_log_full, not_full, settled_value, without_full};
ghost use Rattle.op_life.specs.Filling.{all_filled, fill_one};
ghost use Rattle.op_life.specs.Making.{source_of};

use creation_values::attribute_tests::is_log_status;
use creation_values::value_sources::{source_value, written_value};
use std::alloc::{AllocError, Global};
use term_model::{Attribute, Attrs, Creation, Oids, Outline, Set};
use term_values::value::ValueForm;
use term_values::{Oid, Value, Values};

/// logFull, one of the numbers of availabilityStatus: X.721.
const LOG_FULL: i64 = 8;

/// The attributes of an object that is created.
#[derive(Drop)]
pub struct Filled {
    /// The identifiers of those without a value.
    pub missing: Oids,
    /// The others with their values.
    pub attrs: Attrs,
}

/// Whether a member of availabilityStatus says that a log is full.
fn is_log_full(value: &Value) -> bool
    ensures { result ≡ is_log_full value.now }
{
    match &value.form {
        ValueForm::Int(number) => *number == LOG_FULL,
        _ => false,
    }
}

/// The members that don't say that a log is full.
fn without_full(alloc: Global, values: &[Value]) -> Result<Values, AllocError>
    ensures { IfOk result (λ left. left ≡ without_full (listed values.now)) }
{
    let mut items = Vec::new(alloc);
    for value in values {
        if !is_log_full(value) {
            items.push(value.copy(alloc)?)?;
        }
    }
    Ok(Values { items })
}

/// availabilityStatus of a log that isn't full.
fn not_full(alloc: Global, value: &Value) -> Result<Value, AllocError>
    ensures { IfOk result (λ left. left ≡ not_full value.now) }
{
    match &value.form {
        ValueForm::Many(values) => {
            let left = without_full(alloc, &values.items)?;
            Ok(Value {
                form: ValueForm::Many(left),
            })
        }
        _ => value.copy(alloc),
    }
}

/// A value as it stands in the object.
fn settled_value(
    alloc: Global,
    schema: &Set,
    bound_log: bool,
    id: &Oid,
    value: Value,
) -> Result<Value, AllocError>
    ensures { IfOk result (λ settled. settled ≡ settled_value schema.now bound_log id.now value) }
{
    if is_log_status(schema, bound_log, id) {
        not_full(alloc, &value)
    } else {
        Ok(value)
    }
}

/// The value that an attribute has from elsewhere than the agent, as it stands in the object.
fn settled_source(
    alloc: Global,
    schema: &Set,
    creation: &Creation,
    bound_log: bool,
    id: &Oid,
) -> Result<Option<Value>, AllocError>
    ensures { IfOk result (λ value. value
        ≡ option_map (settled_value schema.now bound_log id.now) (source_of schema.now creation.now id.now)) }
{
    match source_value(alloc, schema, creation, id)? {
        Some(value) => Ok(Some(settled_value(alloc, schema, bound_log, id, value)?)),
        None => Ok(None),
    }
}

/// The value of an attribute of the object, where it has one.
pub fn created_value(
    alloc: Global,
    schema: &Set,
    creation: &Creation,
    outline: &Outline,
    id: &Oid,
) -> Result<Option<Value>, AllocError>
    ensures { IfOk result (λ value. value ≡ created_value schema.now creation.now outline.now id.now) }
{
    match written_value(alloc, schema, creation, outline, id)? {
        Some(value) => Ok(Some(value)),
        None => settled_source(alloc, schema, creation, outline.bound_log, id),
    }
}

/// Adds an attribute with its value, or without one its identifier.
fn fill_one(
    alloc: Global,
    id: &Oid,
    value: Option<Value>,
    into: &mut Filled,
) -> Result<(), AllocError>
    ensures { OnOk result (into.new ≡ fill_one into.old id.now value) }
{
    let id = id.copy(alloc)?;
    match value {
        Some(value) => into.attrs.items.push(Attribute { id, value })?,
        None => into.missing.items.push(id)?,
    }
    Ok(())
}

/// The attributes that the object has with their values, and those that lack one.
pub fn fill_all(
    alloc: Global,
    schema: &Set,
    creation: &Creation,
    outline: &Outline,
) -> Result<Filled, AllocError>
    ensures { IfOk result (λ filled. filled ≡ all_filled schema.now creation.now outline.now) }
{
    let mut filled = Filled {
        missing: Oids {
            items: Vec::new(alloc),
        },
        attrs: Attrs {
            items: Vec::new(alloc),
        },
    };
    for id in &outline.attributes.items {
        let value = created_value(alloc, schema, creation, outline, id)?;
        fill_one(alloc, id, value, &mut filled)?;
    }
    Ok(filled)
}
