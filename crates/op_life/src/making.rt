//! The errors of a creation that its values can have, and the object: X.711, section 7.4, m-Create; docs/PROFILE.md,
//! section 15, the eighth to the eleventh step.

ghost use Rattle.std.specs.Prelude.{◌≡◌, IfOk};
ghost use Rattle.term_model.specs.CreateSteps.{is_exempt, made, missing_error, sized};
ghost use Rattle.term_model.specs.declared.results.FailureReason.TheVariants as reasons;
ghost use Rattle.term_model.specs.CmisErrors.{processing_failure};
ghost use Rattle.op_life.specs.Making.{held_error, made_with, object_with, others_error_of, unfit_error};

use crate::created_values::{Filled, fill_all};
use attribute_rules::is_small;
use creation_values::attribute_tests::is_agent_written;
use creation_values::member_checks::{list_error, may_stand, octets_of};
use creation_values::value_sources::listed_value;
use result_contents::errors::{
    invalid_attribute_value, missing_attribute_value, processing_failure,
};
use std::alloc::{AllocError, Global};
use term_model::{
    Attribute, Attrs, Creation, FailureReason, IdRef, Object, Oids, Outline, Set, StepError,
};
use term_values::Oid;

/// The number of the step that looks for attributes without a value.
const MISSING_STEP: u32 = 9;

/// The number of the step that tries the values that come from elsewhere than the list.
const OTHERS_STEP: u32 = 10;

/// The number of the step that measures the object.
const SIZE_STEP: u32 = 11;

/// missingAttributeValue, where attributes lack a value.
fn missing_error(alloc: Global, missing: &[Oid]) -> Result<Option<StepError>, AllocError>
    ensures { IfOk result (λ error. error ≡ missing_error missing.now) }
{
    if missing.is_empty() {
        return Ok(None);
    }
    let error = missing_attribute_value(alloc, missing)?;
    Ok(Some(StepError {
        step: MISSING_STEP,
        error,
    }))
}

/// Whether the value of an attribute comes from the list, or the agent writes it.
fn is_exempt(schema: &Set, creation: &Creation, outline: &Outline, id: &Oid) -> bool
    ensures { result ≡ is_exempt schema.now creation.now outline.now id.now }
{
    is_agent_written(schema, outline.bound_log, id) || listed_value(creation, id).is_some()
}

/// invalidAttributeValue of an attribute of the object.
fn unfit_error(alloc: Global, schema: &Set, held: &Attribute) -> Result<StepError, AllocError>
    ensures { IfOk result (λ error. error ≡ unfit_error schema.now held.now) }
{
    let octets = octets_of(alloc, schema, &held.id, &held.value)?;
    let id = IdRef::Global(held.id.copy(alloc)?);
    let error = invalid_attribute_value(alloc, &id, octets.as_slice())?;
    Ok(StepError {
        step: OTHERS_STEP,
        error,
    })
}

/// The error of an attribute of the object whose value comes from elsewhere than the list.
fn held_error(
    alloc: Global,
    schema: &Set,
    creation: &Creation,
    outline: &Outline,
    held: &Attribute,
) -> Result<Option<StepError>, AllocError>
    ensures { IfOk result (λ error. error ≡ held_error schema.now creation.now outline.now held.now) }
{
    if is_exempt(schema, creation, outline, &held.id) {
        return Ok(None);
    }
    if may_stand(alloc, schema, &creation.class, &held.id, &held.value)? {
        return Ok(None);
    }
    Ok(Some(unfit_error(alloc, schema, held)?))
}

/// The error of the first attribute of the object that has one.
fn others_error(
    alloc: Global,
    schema: &Set,
    creation: &Creation,
    outline: &Outline,
    attributes: &[Attribute],
) -> Result<Option<StepError>, AllocError>
    ensures { IfOk result (λ error. error
        ≡ others_error_of schema.now creation.now outline.now attributes.now) }
{
    for held in attributes {
        let error = held_error(alloc, schema, creation, outline, held)?;
        if error.is_some() {
            return Ok(error);
        }
    }
    Ok(None)
}

/// processingFailure of an object that is too long.
fn limit_error(alloc: Global, creation: &Creation) -> Result<StepError, AllocError>
    ensures { IfOk result (λ error. error ≡ record {
      step = 11;
      error = processing_failure creation.now.asked creation.now.instance reasons.Limit;
    }) }
{
    let instance = creation.instance.as_slice();
    let error = processing_failure(alloc, &creation.asked, instance, FailureReason::Limit)?;
    Ok(StepError {
        step: SIZE_STEP,
        error,
    })
}

/// The object, unless it is too long.
#[tactic(auto, using(crate::proofs::MakingLaws::small_sized, crate::proofs::MakingLaws::large_sized))]
fn sized(
    alloc: Global,
    schema: &Set,
    creation: &Creation,
    object: Object,
) -> Result<Result<Object, StepError>, AllocError>
    ensures { IfOk result (λ came. came ≡ sized schema.now creation.now object) }
{
    if is_small(alloc, schema, &object)? {
        return Ok(Ok(object));
    }
    Ok(Err(limit_error(alloc, creation)?))
}

/// A copy of the name binding, where there is one.
fn copy_binding(alloc: Global, binding: &Option<Oid>) -> Result<Option<Oid>, AllocError>
    ensures { IfOk result (λ copy. copy ≡ binding.now) }
{
    match binding {
        Some(id) => Ok(Some(id.copy(alloc)?)),
        None => Ok(None),
    }
}

/// The object with these attributes.
fn object_with(
    alloc: Global,
    creation: &Creation,
    chosen: &Oids,
    attrs: Attrs,
) -> Result<Object, AllocError>
    ensures { IfOk result (λ object. object ≡ object_with creation.now chosen.now attrs) }
{
    let class = creation.class.copy(alloc)?;
    let binding = copy_binding(alloc, &creation.binding)?;
    let chosen = chosen.copy(alloc)?;
    Ok(Object {
        class,
        binding,
        chosen,
        attrs,
    })
}

/// The object, or the first error behind that of its list.
fn made_with(
    alloc: Global,
    schema: &Set,
    creation: &Creation,
    outline: &Outline,
    filled: Filled,
) -> Result<Result<Object, StepError>, AllocError>
    ensures { IfOk result (λ came. came
        ≡ made_with schema.now creation.now outline.now filled.missing filled.attrs) }
{
    if let Some(error) = missing_error(alloc, filled.missing.items.as_slice())? {
        return Ok(Err(error));
    }
    let attributes = filled.attrs.items.as_slice();
    if let Some(error) = others_error(alloc, schema, creation, outline, attributes)? {
        return Ok(Err(error));
    }
    let object = object_with(alloc, creation, &outline.chosen, filled.attrs)?;
    sized(alloc, schema, creation, object)
}

/// The object, or the first error of the eighth to the eleventh step.
#[tactic(auto, using(crate::proofs::MakingLaws::list_told, crate::proofs::MakingLaws::made_told))]
pub fn made(
    alloc: Global,
    schema: &Set,
    creation: &Creation,
    outline: &Outline,
) -> Result<Result<Object, StepError>, AllocError>
    ensures { IfOk result (λ came. came ≡ made schema.now creation.now outline.now) }
{
    let attributes = outline.attributes.items.as_slice();
    if let Some(error) = list_error(alloc, schema, creation, attributes)? {
        return Ok(Err(error));
    }
    let filled = fill_all(alloc, schema, creation, outline)?;
    made_with(alloc, schema, creation, outline, filled)
}
