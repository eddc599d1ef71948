//! The attempts to create an object with the name bindings that license it: X.711, section 7.4, m-Create;
//! docs/PROFILE.md, section 15, the sixth step and those behind it.

ghost use Rattle.std.specs.Prelude.{◌≡◌, IfOk, None};
ghost use Rattle.term_model.specs.declared.results.FailureReason.TheVariants as reasons;
ghost use Rattle.term_model.specs.CmisErrors.{processing_failure};
ghost use Rattle.term_model.specs.Creating.{allows, attempt, attempted, created_below, is_creatable};
ghost use Rattle.term_model.specs.Creating.{leads_further, reached, told};
ghost use Rattle.op_life.specs.Attempting.{best_with, better, binds_by, told_of, tried_all};

use crate::copies::with_binding;
use crate::licensing::{ClassLine, binds_by, class_line, names_by};
use crate::making::made;
use crate::outlines::outline_of;
use result_contents::errors::{invalid_instance, processing_failure};
use std::alloc::{AllocError, Global};
use std::cmp::Ordering;
use term_model::{
    BindRec, CmisError, CreateClause, Creation, FailureReason, Object, Outline, Set, StepError,
};
use term_values::Oid;

/// The number of the step that asks for a CREATE clause.
const CLAUSE_STEP: u32 = 7;

/// What an attempt reaches that fails at no step.
const PAST_LAST_STEP: u32 = 12;

/// What came of an attempt.
type Outcome = Result<Object, StepError>;

/// An attempt: the identifier of the name binding, and what came of it.
type Attempt = (Oid, Outcome);

/// What an attempt asks for of a name binding.
#[derive(Clone, Copy, Debug, PartialEq, Eq)]
pub struct Wanted {
    /// A CREATE clause.
    pub clause: bool,
    /// One with WITH-REFERENCE-OBJECT.
    pub with_reference: bool,
}

/// Whether a CREATE clause allows it, with or without a reference object.
fn allows(with_reference: bool, clause: &CreateClause) -> bool
    ensures { result ≡ allows with_reference clause.now }
{
    !with_reference || clause.with_reference_object
}

/// Whether a name binding allows the creation.
fn is_creatable(wanted: Wanted, binding: &BindRec) -> bool
    ensures { result ≡ is_creatable wanted.clause wanted.with_reference binding.now }
{
    if !wanted.clause {
        return true;
    }
    match &binding.create {
        Some(create) => allows(wanted.with_reference, create),
        None => false,
    }
}

/// processingFailure of an object that may not be created.
fn clause_error(alloc: Global, creation: &Creation) -> Result<StepError, AllocError>
    ensures { IfOk result (λ error. error ≡ record {
      step = 7;
      error = processing_failure creation.now.asked creation.now.instance reasons.NotCreatable;
    }) }
{
    let instance = creation.instance.as_slice();
    let error = processing_failure(
        alloc,
        &creation.asked,
        instance,
        FailureReason::NotCreatable,
    )?;
    Ok(StepError {
        step: CLAUSE_STEP,
        error,
    })
}

/// The seventh step and those behind it, with a name binding.
fn attempt(
    alloc: Global,
    schema: &Set,
    wanted: Wanted,
    creation: &Creation,
    outline: &Outline,
    binding: &BindRec,
) -> Result<Outcome, AllocError>
    ensures { IfOk result (λ came. came
        ≡ attempt schema.now wanted.clause wanted.with_reference creation.now outline.now binding.now) }
{
    if !is_creatable(wanted, binding) {
        return Ok(Err(clause_error(alloc, creation)?));
    }
    let own = with_binding(alloc, creation, &binding.id)?;
    made(alloc, schema, &own, outline)
}

/// How far an attempt leads: to the step that fails, or past the last one.
fn reached(came: &Outcome) -> u32
    ensures { result ≡ reached came.now }
{
    match came {
        Ok(_) => PAST_LAST_STEP,
        Err(error) => error.step,
    }
}

/// Whether an attempt leads further than another, or as far with a lesser identifier.
fn leads_further(one: &Attempt, other: &Attempt) -> bool
    ensures { result ≡ leads_further one.now other.now }
{
    let far = reached(&one.1);
    let near = reached(&other.1);
    near < far || near == far && one.0.cmp(&other.0) == Ordering::Less
}

/// An attempt, or one before it that leads further.
fn better(best: Option<Attempt>, next: Attempt) -> Attempt
    ensures { result ≡ better best next }
{
    match best {
        None => next,
        Some(best) => {
            if leads_further(&next, &best) {
                next
            } else {
                best
            }
        }
    }
}

/// The attempt with a name binding.
fn attempted(
    alloc: Global,
    schema: &Set,
    wanted: Wanted,
    creation: &Creation,
    outline: &Outline,
    binding: &BindRec,
) -> Result<Attempt, AllocError>
    ensures { IfOk result (λ found. found
        ≡ attempted schema.now wanted.clause wanted.with_reference creation.now outline.now binding.now) }
{
    let came = attempt(alloc, schema, wanted, creation, outline, binding)?;
    let id = binding.id.copy(alloc)?;
    Ok((id, came))
}

/// The best attempt with the name bindings of these lines of classes.
fn try_bindings(
    alloc: Global,
    schema: &Set,
    wanted: Wanted,
    creation: &Creation,
    outline: &Outline,
    subordinate: &ClassLine,
    superior: &ClassLine,
) -> Result<Option<Attempt>, AllocError>
    ensures { IfOk result (λ best. best
        ≡ tried_all (binds_by subordinate.now superior.now creation.now.named.attribute)
        (attempted schema.now wanted.clause wanted.with_reference creation.now outline.now)
        None schema.now.bindings) }
{
    let mut best = None;
    for binding in &schema.bindings.items {
        if binds_by(binding, subordinate, superior, &creation.named.attribute) {
            let next = attempted(alloc, schema, wanted, creation, outline, binding)?;
            best = Some(better(best, next));
        }
    }
    Ok(best)
}

/// The best attempt with the name bindings that license the object below one of a class.
#[tactic(auto, using(crate::proofs::AttemptLaws::best_by_lines, crate::proofs::AttemptLaws::not_named))]
fn best_attempt(
    alloc: Global,
    schema: &Set,
    wanted: Wanted,
    creation: &Creation,
    outline: &Outline,
    superior: &Oid,
) -> Result<Option<Attempt>, AllocError>
    ensures { IfOk result (λ best. best
        ≡ best_with schema.now wanted.clause wanted.with_reference creation.now outline.now superior.now) }
{
    if !names_by(schema, outline, &creation.named.attribute) {
        return Ok(None);
    }
    let own = class_line(alloc, schema, &creation.class)?;
    let above = class_line(alloc, schema, superior)?;
    try_bindings(alloc, schema, wanted, creation, outline, &own, &above)
}

/// The object of an outcome, or its error.
pub(crate) fn object_of(came: Outcome) -> Result<Object, CmisError>
    ensures { result ≡ told came }
{
    match came {
        Ok(object) => Ok(object),
        Err(error) => Err(error.error),
    }
}

/// The object of the best attempt or its error, and without an attempt the error of the instance.
fn told(
    alloc: Global,
    creation: &Creation,
    best: Option<Attempt>,
) -> Result<Result<Object, CmisError>, AllocError>
    ensures { IfOk result (λ came. came ≡ told_of creation.now best) }
{
    match best {
        None => Ok(Err(invalid_instance(alloc, creation.instance.as_slice())?)),
        Some((_, came)) => Ok(object_of(came)),
    }
}

/// The sixth step and those behind it, below an object of a class.
#[tactic(auto, using(crate::proofs::AttemptLaws::best_is_told))]
pub fn created_below(
    alloc: Global,
    schema: &Set,
    wanted: Wanted,
    creation: &Creation,
    superior: &Oid,
) -> Result<Result<Object, CmisError>, AllocError>
    ensures { IfOk result (λ came. came
        ≡ created_below schema.now wanted.clause wanted.with_reference creation.now superior.now) }
{
    let outline = outline_of(alloc, schema, &creation.class, &creation.given.items)?;
    let best = best_attempt(alloc, schema, wanted, creation, &outline, superior)?;
    told(alloc, creation, best)
}
