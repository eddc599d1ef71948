//! The creation of one object under a name that is given: X.711, section 7.4, m-Create; docs/PROFILE.md, section 15.
//! The steps are tried in their order; a creation under a name that the agent chooses is a case that comes later.

ghost use Rattle.std.specs.Prelude.{◌≡◌, IfOk, is_some};
ghost use Rattle.std.specs.Option.{option_copied};
ghost use Rattle.term_model.specs.declared.request.Named.TheVariants as named;
ghost use Rattle.term_model.specs.CmisErrors.{invalid_instance};
ghost use Rattle.term_model.specs.Creating.{below_superior, class_asked, create_named, created_below, refused};
ghost use Rattle.term_model.specs.Creating.{under, under_name};
ghost use Rattle.term_model.specs.Opening.{create_root, root_named, root_under};
ghost use Rattle.op_life.specs.AskingView.{asking_view};
ghost use Rattle.op_life.specs.Placing.{by_parts, created_from, placed_below};
ghost use Rattle.op_life.specs.Referring.{creation_with};

use crate::asking::Asking;
use crate::attempts::{Wanted, created_below, object_of};
use crate::copies::{copy_givens, copy_id};
use crate::last_parts::{MOST_PARTS, has_value, name_of};
use crate::licensing::names_by;
use crate::making::made;
use crate::outlines::outline_of;
use crate::references::{attributes_held, lacks_found, raw_of, referred};
use creation_values::value_sources::registered;
use result_contents::errors::{
    duplicate_instance, invalid_instance, no_such_instance, no_such_object_class, no_such_reference,
};
use result_contents::names::instance;
use std::alloc::{AllocError, Global};
use term_model::ranged::Ranged;
use term_model::{CmisError, Creation, IdRef, Name, Named, Object, Rdn, Set, StepLedger, Steps};
use term_values::Oid;

/// The class that is asked for, where there is one.
fn class_asked<'a>(schema: &'a Set, class: &IdRef) -> Option<&'a Oid>
    ensures { option_copied result ≡ class_asked schema.now class.now }
{
    match registered(class) {
        Some(id) => match schema.classes.find(id) {
            Some(of_class) => Some(&of_class.id),
            None => None,
        },
        None => None,
    }
}

/// What is created, with the reference object that was found, but for the name binding.
fn creation_with(
    alloc: Global,
    asking: &Asking,
    class: &Oid,
    part: &Rdn,
    found: Option<&Object>,
) -> Result<Creation, AllocError>
    ensures { IfOk result (λ creation. creation
        ≡ creation_with (asking_view asking.now) class.now part.now (option_copied found.entry)) }
{
    let class = class.copy(alloc)?;
    let named = part.copy(alloc)?;
    let given = copy_givens(alloc, &asking.given)?;
    let taken = attributes_held(alloc, found)?;
    let asked = copy_id(alloc, &asking.class)?;
    let instance = asking.instance.copy(alloc)?;
    Ok(Creation {
        class,
        binding: None,
        named,
        given,
        taken,
        asked,
        instance,
    })
}

/// invalidObjectInstance.
fn invalid(alloc: Global, asking: &Asking) -> Result<Result<Object, CmisError>, AllocError>
    ensures { IfOk result (λ came. came ≡ refused (invalid_instance asking.now.instance)) }
{
    Ok(Err(invalid_instance(alloc, asking.instance.as_slice())?))
}

/// The sixth step and those behind it, with the reference object that was found.
fn created_with(
    alloc: Global,
    schema: &Set,
    asking: &Asking,
    class: &Oid,
    part: &Rdn,
    superior: &Oid,
    found: Option<&Object>,
) -> Result<Result<Object, CmisError>, AllocError>
    ensures { IfOk result (λ came. came
        ≡ created_below schema.now asking.now.clause (is_some asking.now.reference)
        (creation_with (asking_view asking.now) class.now part.now (option_copied found.entry)) superior.now) }
{
    let creation = creation_with(alloc, asking, class, part, found)?;
    let wanted = Wanted {
        clause: asking.clause,
        with_reference: asking.reference.is_some(),
    };
    created_below(alloc, schema, wanted, &creation, superior)
}

/// The fifth step and those behind it.
fn created_from<L: StepLedger, M: Ranged<L>>(
    alloc: Global,
    schema: &Set,
    mib: &M,
    asking: &Asking,
    class: &Oid,
    part: &Rdn,
    superior: &Oid,
    steps: &mut Steps<L>,
) -> Result<Result<Object, CmisError>, AllocError>
    ensures { IfOk result (λ came. came
        ≡ created_from schema.now (M.objects mib.now) (asking_view asking.now) class.now part.now superior.now) }
{
    let found = referred(mib, &asking.reference, steps);
    if lacks_found(class, &asking.reference, found) {
        return Ok(Err(no_such_reference(alloc, raw_of(&asking.reference))?));
    }
    created_with(alloc, schema, asking, class, part, superior, found)
}

/// The fourth step and those behind it.
#[tactic(auto, using(crate::proofs::PlacingLaws::stands_already, crate::proofs::PlacingLaws::stands_not))]
fn below_superior<L: StepLedger, M: Ranged<L>>(
    alloc: Global,
    schema: &Set,
    mib: &M,
    asking: &Asking,
    class: &Oid,
    name: &Name,
    part: &Rdn,
    superior: &Object,
    steps: &mut Steps<L>,
) -> Result<Result<Object, CmisError>, AllocError>
    ensures { IfOk result (λ came. came ≡ below_superior schema.now (M.objects mib.now) (asking_view asking.now)
        class.now name.now part.now superior.now) }
{
    if mib.at(name, steps).is_some() {
        return Ok(Err(duplicate_instance(alloc, asking.instance.as_slice())?));
    }
    created_from(
        alloc,
        schema,
        mib,
        asking,
        class,
        part,
        &superior.class,
        steps,
    )
}

/// The third step and those behind it: the superior has the front parts of the name.
fn in_place<L: StepLedger, M: Ranged<L>>(
    alloc: Global,
    schema: &Set,
    mib: &M,
    asking: &Asking,
    class: &Oid,
    name: &Name,
    front: &[Rdn],
    part: &Rdn,
    steps: &mut Steps<L>,
) -> Result<Result<Object, CmisError>, AllocError>
    ensures { IfOk result (λ came. came ≡ placed_below schema.now (M.objects mib.now) (asking_view asking.now)
        class.now name.now part.now front.now) }
{
    let superior = name_of(alloc, front)?;
    match mib.at(&superior, steps) {
        Some(found) => below_superior(alloc, schema, mib, asking, class, name, part, found, steps),
        None => {
            let octets = instance(alloc, front)?;
            Ok(Err(no_such_instance(alloc, octets.as_slice())?))
        }
    }
}

/// The second step and those behind it, by the last part of the name and those before it.
fn by_parts<L: StepLedger, M: Ranged<L>>(
    alloc: Global,
    schema: &Set,
    mib: &M,
    asking: &Asking,
    class: &Oid,
    name: &Name,
    front: &[Rdn],
    part: &Rdn,
    steps: &mut Steps<L>,
) -> Result<Result<Object, CmisError>, AllocError>
    ensures { IfOk result (λ came. came ≡ by_parts schema.now (M.objects mib.now) (asking_view asking.now)
        class.now name.now part.now front.now) }
{
    let fits = has_value(alloc, schema, part)?;
    if name.parts.as_slice().len() <= MOST_PARTS && fits {
        in_place(alloc, schema, mib, asking, class, name, front, part, steps)
    } else {
        invalid(alloc, asking)
    }
}

/// The second step and those behind it.
fn under_name<L: StepLedger, M: Ranged<L>>(
    alloc: Global,
    schema: &Set,
    mib: &M,
    asking: &Asking,
    class: &Oid,
    name: &Name,
    steps: &mut Steps<L>,
) -> Result<Result<Object, CmisError>, AllocError>
    ensures { IfOk result (λ came. came
        ≡ under_name schema.now (M.objects mib.now) (asking_view asking.now) class.now name.now) }
{
    match name.parts.as_slice().split_last() {
        Some((part, front)) => by_parts(
            alloc, schema, mib, asking, class, name, front, part, steps,
        ),
        None => invalid(alloc, asking),
    }
}

/// The same of what an instance names.
fn under<L: StepLedger, M: Ranged<L>>(
    alloc: Global,
    schema: &Set,
    mib: &M,
    asking: &Asking,
    class: &Oid,
    named: &Named,
    steps: &mut Steps<L>,
) -> Result<Result<Object, CmisError>, AllocError>
    ensures { IfOk result (λ came. came
        ≡ under schema.now (M.objects mib.now) (asking_view asking.now) named.now class.now) }
{
    match named {
        Named::Object(name) => under_name(alloc, schema, mib, asking, class, name, steps),
        _ => invalid(alloc, asking),
    }
}

/// The creation of what an instance names.
pub(crate) fn create_instance<L: StepLedger, M: Ranged<L>>(
    alloc: Global,
    schema: &Set,
    mib: &M,
    asking: &Asking,
    named: &Named,
    steps: &mut Steps<L>,
) -> Result<Result<Object, CmisError>, AllocError>
    ensures { IfOk result (λ came. came
        ≡ create_named schema.now (M.objects mib.now) (asking_view asking.now) named.now) }
{
    match class_asked(schema, &asking.class) {
        Some(class) => under(alloc, schema, mib, asking, class, named, steps),
        None => Ok(Err(no_such_object_class(alloc, &asking.class)?)),
    }
}

/// The object that stands under the name from then on, or the error of the first step that has one. The map itself
/// stays; how many objects it has is not looked at.
pub fn create_named<L: StepLedger, M: Ranged<L>>(
    alloc: Global,
    schema: &Set,
    mib: &M,
    asking: &Asking,
    name: &Name,
    steps: &mut Steps<L>,
) -> Result<Result<Object, CmisError>, AllocError>
    ensures { IfOk result (λ made. made
        ≡ create_named schema.now (M.objects mib.now) (asking_view asking.now) (named.Object name.now)) }
{
    match class_asked(schema, &asking.class) {
        Some(class) => under_name(alloc, schema, mib, asking, class, name, steps),
        None => Ok(Err(no_such_object_class(alloc, &asking.class)?)),
    }
}

/// The root, named by this part.
fn root_named(
    alloc: Global,
    schema: &Set,
    asking: &Asking,
    class: &Oid,
    part: &Rdn,
) -> Result<Result<Object, CmisError>, AllocError>
    ensures { IfOk result (λ came. came
        ≡ root_named schema.now (asking_view asking.now) class.now part.now) }
{
    let outline = outline_of(alloc, schema, class, &asking.given.items)?;
    let fits = has_value(alloc, schema, part)?;
    if names_by(schema, &outline, &part.attribute) && fits {
        let creation = creation_with(alloc, asking, class, part, None)?;
        let came = made(alloc, schema, &creation, &outline)?;
        Ok(object_of(came))
    } else {
        invalid(alloc, asking)
    }
}

/// The root, named by the last part of the system's own name.
fn root_under(
    alloc: Global,
    schema: &Set,
    asking: &Asking,
    class: &Oid,
) -> Result<Result<Object, CmisError>, AllocError>
    ensures { IfOk result (λ came. came
        ≡ root_under schema.now schema.now.system (asking_view asking.now) class.now) }
{
    match schema.system.parts.as_slice().split_last() {
        Some((part, _)) => root_named(alloc, schema, asking, class, part),
        None => invalid(alloc, asking),
    }
}

/// The root, which has no superior and no name binding, or the error of the first step that has one.
pub fn create_root(
    alloc: Global,
    schema: &Set,
    asking: &Asking,
) -> Result<Result<Object, CmisError>, AllocError>
    ensures { IfOk result (λ made. made ≡ create_root schema.now (asking_view asking.now)) }
{
    match class_asked(schema, &asking.class) {
        Some(class) => root_under(alloc, schema, asking, class),
        None => Ok(Err(no_such_object_class(alloc, &asking.class)?)),
    }
}
