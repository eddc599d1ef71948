//! Copies of what a creation is asked for with, so that an attempt has values of its own.

ghost use Rattle.std.specs.Prelude.{◌≡◌, IfOk, Some};

use std::alloc::{AllocError, Global};
use term_model::{Creation, Given, Givens, IdRef, Instance, Named};
use term_values::{Oid, Value};

/// A copy of an identifier.
pub(crate) fn copy_id(alloc: Global, id: &IdRef) -> Result<IdRef, AllocError>
    ensures { IfOk result (λ copy. copy ≡ id.now) }
{
    match id {
        IdRef::Global(oid) => Ok(IdRef::Global(oid.copy(alloc)?)),
        IdRef::Local(number) => Ok(IdRef::Local(*number)),
    }
}

/// A copy of a value, where there is one.
fn copy_value(alloc: Global, value: &Option<Value>) -> Result<Option<Value>, AllocError>
    ensures { IfOk result (λ copy. copy ≡ value.now) }
{
    match value {
        Some(value) => Ok(Some(value.copy(alloc)?)),
        None => Ok(None),
    }
}

/// A copy of an attribute with its value.
fn copy_given(alloc: Global, given: &Given) -> Result<Given, AllocError>
    ensures { IfOk result (λ copy. copy ≡ given.now) }
{
    let id = copy_id(alloc, &given.id)?;
    let value = copy_value(alloc, &given.value)?;
    let raw = given.raw.copy(alloc)?;
    Ok(Given { id, value, raw })
}

/// A copy of a list of attributes.
pub(crate) fn copy_givens(alloc: Global, givens: &Givens) -> Result<Givens, AllocError>
    ensures { IfOk result (λ copy. copy ≡ givens.now) }
{
    let mut items = Vec::new(alloc);
    for given in &givens.items {
        items.push(copy_given(alloc, given)?)?;
    }
    Ok(Givens { items })
}

/// A copy of what an instance names.
fn copy_named(alloc: Global, named: &Named) -> Result<Named, AllocError>
    ensures { IfOk result (λ copy. copy ≡ named.now) }
{
    match named {
        Named::NonSpecific => Ok(Named::NonSpecific),
        Named::Nothing => Ok(Named::Nothing),
        Named::Object(name) => Ok(Named::Object(name.copy(alloc)?)),
    }
}

/// A copy of an instance.
fn copy_instance(alloc: Global, instance: &Instance) -> Result<Instance, AllocError>
    ensures { IfOk result (λ copy. copy ≡ instance.now) }
{
    let raw = instance.raw.copy(alloc)?;
    let named = copy_named(alloc, &instance.named)?;
    Ok(Instance { raw, named })
}

/// A copy of a reference, where there is one.
pub(crate) fn copy_reference(
    alloc: Global,
    reference: &Option<Instance>,
) -> Result<Option<Instance>, AllocError>
    ensures { IfOk result (λ copy. copy ≡ reference.now) }
{
    match reference {
        Some(instance) => Ok(Some(copy_instance(alloc, instance)?)),
        None => Ok(None),
    }
}

/// The same creation by a name binding.
pub(crate) fn with_binding(
    alloc: Global,
    creation: &Creation,
    binding: &Oid,
) -> Result<Creation, AllocError>
    ensures { IfOk result (λ copy. copy ≡ record creation.now { binding = Some binding.now }) }
{
    let class = creation.class.copy(alloc)?;
    let binding = binding.copy(alloc)?;
    let named = creation.named.copy(alloc)?;
    let given = copy_givens(alloc, &creation.given)?;
    let taken = creation.taken.copy(alloc)?;
    let asked = copy_id(alloc, &creation.asked)?;
    let instance = creation.instance.copy(alloc)?;
    Ok(Creation {
        class,
        binding: Some(binding),
        named,
        given,
        taken,
        asked,
        instance,
    })
}
