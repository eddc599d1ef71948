//! What an m-Create that names its instance does: X.711, section 7.4, m-Create.

ghost use Rattle.std.specs.Prelude.{◌≡◌, ◌∷◌, [], IfOk, Some, min};
ghost use Rattle.term_model.specs.declared.effect.What.TheVariants as whats;
ghost use Rattle.term_model.specs.CreateEffect.{asking_for, create_one, effect_of, name_in};
ghost use Rattle.term_model.specs.Effects.{TellsEffect};
ghost use Rattle.op_life.specs.AskingView.{asking_view};
ghost use Rattle.op_life.specs.Effecting.{effect_at};

use crate::asking::Asking;
use crate::copies::{copy_givens, copy_id, copy_reference};
use crate::creating::create_instance;
use op_object::object_reading::get_one;
use std::alloc::{AllocError, Global};
use term_model::ranged::Ranged;
use term_model::{
    CmisError, Effect, Givens, IdRef, Instance, Name, Named, Object, OneRefusal, Patch, Reply, Set,
    Source, Sources, StepLedger, Steps, What,
};
use time_text::write_time;

/// What a manager asks for, who names the instance.
fn asking_for(
    alloc: Global,
    class: &IdRef,
    instance: &Instance,
    reference: &Option<Instance>,
    given: &Givens,
) -> Result<Asking, AllocError>
    ensures { IfOk result (λ asking. asking_view asking
        ≡ asking_for class.now instance.now reference.now given.now) }
{
    let class = copy_id(alloc, class)?;
    let instance = instance.raw.copy(alloc)?;
    let reference = copy_reference(alloc, reference)?;
    let given = copy_givens(alloc, given)?;
    Ok(Asking {
        class,
        instance,
        reference,
        given,
        clause: true,
    })
}

/// The name in an instance, and the root's where it names nothing here.
fn name_in(alloc: Global, named: &Named) -> Result<Name, AllocError>
    ensures { IfOk result (λ name. name ≡ name_in named.now) }
{
    match named {
        Named::Object(name) => name.copy(alloc),
        _ => Ok(Name::root(alloc)),
    }
}

/// The change set of a creation.
fn created_patch(alloc: Global, name: Name, object: Object) -> Result<Patch, AllocError>
    ensures { IfOk result (λ patch. patch ≡ (name, Some object) ∷ []) }
{
    let mut items = Vec::new(alloc);
    items.push((name, Some(object)))?;
    Ok(Patch { items })
}

/// The event source of a creation.
fn created_source(alloc: Global, name: &Name, object: &Object) -> Result<Sources, AllocError>
    ensures { IfOk result (λ sources. sources
        ≡ record { name = name.now; class = object.now.class; what = whats.Created } ∷ []) }
{
    let name = name.copy(alloc)?;
    let class = object.class.copy(alloc)?;
    let mut items = Vec::new(alloc);
    items.push(Source {
        name,
        class,
        what: What::Created,
    })?;
    Ok(Sources { items })
}

/// The object stands under its name; the result has all attributes that managers may read, and the creation is told.
fn effect_at(
    alloc: Global,
    schema: &Set,
    name: Name,
    object: Object,
    time: &[u8],
) -> Result<Effect, AllocError>
    ensures { IfOk result (λ effect. effect ≡ effect_at schema.now name object time.now) }
{
    let octets = get_one(alloc, schema, name.parts.as_slice(), &object, time)?;
    let sources = created_source(alloc, &name, &object)?;
    let changes = created_patch(alloc, name, object)?;
    Ok(Effect {
        changes,
        reply: Reply::Single(octets),
        sources,
    })
}

/// The effect of a creation, or its error.
fn effect_of(
    alloc: Global,
    schema: &Set,
    named: &Named,
    time: u64,
    came: Result<Object, CmisError>,
) -> Result<Effect, OneRefusal>
    ensures { TellsEffect (effect_of schema.now (name_in named.now) (min time 253370764799) came) result }
{
    match came {
        Ok(object) => {
            let name = name_in(alloc, named)?;
            let text = write_time(time);
            let effect = effect_at(alloc, schema, name, object, &text)?;
            Ok(effect)
        }
        Err(error) => Err(OneRefusal::Cmis(error)),
    }
}

/// The effect of an m-Create that names the instance, granted at a moment in seconds since 1970, or the error of the
/// first step that has one. How many objects there are is not looked at. A moment past the year 9998 is taken as its
/// last second.
pub fn create_one<L: StepLedger, M: Ranged<L>>(
    alloc: Global,
    set: &Set,
    mib: &M,
    class: &IdRef,
    instance: &Instance,
    reference: &Option<Instance>,
    given: &Givens,
    time: u64,
    steps: &mut Steps<L>,
) -> Result<Effect, OneRefusal>
    ensures { TellsEffect (create_one set.now (M.objects mib.now) class.now instance.now reference.now given.now
        (min time 253370764799)) result }
{
    let asking = asking_for(alloc, class, instance, reference, given)?;
    let came = create_instance(alloc, set, mib, &asking, &instance.named, steps)?;
    effect_of(alloc, set, &instance.named, time, came)
}
