//! An operation on the objects that were selected, one after the other: X.711, section 7.5, type CMISSync.

ghost use Rattle.std.specs.Prelude.{◌≡◌, ◌∷◌, ◌++◌, ◌≤◌, [], IfOk, List, OnOk};
ghost use Rattle.term_model.specs.BoundClasses.{object_size};
ghost use Rattle.term_model.specs.declared.objects.NamedObject.{NamedObject};
ghost use Rattle.term_model.specs.Effects.{TellsEffect};
ghost use Rattle.op_engine.specs.Acting.{act_of, noted_at, noted_of, nothing_done, settled, with_effect, with_failure};
ghost use Rattle.op_engine.specs.Selecting.{AreThere, IsThere};
ghost use Rattle.scope_select.specs.Subtrees.{referred};
ghost use Rattle.term_model.specs.NamedObjects.{names};
ghost use Rattle.operation_model.specs.OperationConditions.{AreSmall};
ghost use Rattle.operation_model.specs.WholeOperation.{is_atomic};

use crate::outcome::Replies;
use object_modifications::set_one;
use op_object::get_one;
use result_contents::errors::mistyped_operation;
use std::alloc::{AllocError, Global};
use term_model::request::ATOMIC;
use term_model::{
    CmisError, Effect, Head, Name, NamedObject, Object, OneRefusal, Patch, Reply, Request, Set,
    Sources,
};

/// What an operation did so far: what it changes, what it answers, and, where it is atomic, the errors of the objects
/// on which it failed, which are then answered alone.
#[derive(Drop)]
pub(crate) struct Acting {
    pub(crate) changes: Patch,
    pub(crate) replies: Replies,
    pub(crate) failures: Replies,
    pub(crate) sources: Sources,
}

/// Nothing done yet.
fn nothing_done(alloc: Global) -> Acting
    ensures { result ≡ nothing_done }
{
    Acting {
        changes: Patch {
            items: Vec::new(alloc),
        },
        replies: Replies {
            items: Vec::new(alloc),
        },
        failures: Replies {
            items: Vec::new(alloc),
        },
        sources: Sources {
            items: Vec::new(alloc),
        },
    }
}

/// Whether an operation is to be done on all objects or none.
pub(crate) fn is_atomic(head: &Head) -> bool
    ensures { result ≡ is_atomic head.now }
{
    head.sync == ATOMIC
}

/// What the operation does to one object.
fn effect_on(
    alloc: Global,
    schema: &Set,
    request: &Request,
    time: u64,
    name: &Name,
    object: &Object,
) -> Result<Effect, OneRefusal>
    requires small { object_size schema.now object.now ≤ 16384 }
    ensures { (objects : List NamedObject) →
        TellsEffect (act_of schema.now request.now time objects name.now object.now) result }
{
    match request {
        Request::Get { head: _, ids } => get_one(alloc, schema, name, object, ids, time),
        Request::Set {
            head,
            changes,
            confirmed: _,
        } => set_one(alloc, schema, name, object, changes, is_atomic(head), time),
        _ => Err(OneRefusal::Cmis(mistyped_operation())),
    }
}

/// Adds members behind others.
fn add_all<T: Drop>(into: &mut Vec<T>, added: Vec<T>) -> Result<(), AllocError>
    ensures { OnOk result (into.new.items ≡ into.old.items ++ added.items) }
{
    for member in added {
        into.push(member)?;
    }
    Ok(())
}

/// Notes an effect behind what was done.
fn note_effect(so_far: &mut Acting, effect: Effect) -> Result<(), AllocError>
    ensures { OnOk result (so_far.new ≡ with_effect so_far.old effect) }
{
    add_all(&mut so_far.changes.items, effect.changes.items)?;
    so_far.replies.items.push(effect.reply)?;
    add_all(&mut so_far.sources.items, effect.sources.items)?;
    Ok(())
}

/// Notes an error: apart where the operation is atomic, else among the replies.
fn note_failure(so_far: &mut Acting, atomic: bool, error: CmisError) -> Result<(), AllocError>
    ensures { OnOk result (so_far.new ≡ with_failure atomic so_far.old error) }
{
    if atomic {
        so_far.failures.items.push(Reply::Error(error))?;
    } else {
        so_far.replies.items.push(Reply::Error(error))?;
    }
    Ok(())
}

/// The operation on one selected object.
fn act_on(
    alloc: Global,
    schema: &Set,
    request: &Request,
    time: u64,
    atomic: bool,
    entry: &NamedObject,
    so_far: &mut Acting,
) -> Result<(), AllocError>
    requires small { object_size schema.now entry.now.object ≤ 16384 }
    ensures { OnOk result ((objects : List NamedObject) → IsThere objects entry.now → so_far.new
        ≡ noted_at atomic (act_of schema.now request.now time) objects so_far.old entry.now.name) }
{
    match effect_on(alloc, schema, request, time, &entry.name, &entry.object) {
        Ok(effect) => note_effect(so_far, effect),
        Err(OneRefusal::Cmis(error)) => note_failure(so_far, atomic, error),
        Err(OneRefusal::Memory) => Err(AllocError),
    }
}

/// The operation on all selected objects, which stand in the map, in the order of their names.
pub(crate) fn act_on_all(
    alloc: Global,
    schema: &Set,
    request: &Request,
    time: u64,
    atomic: bool,
    entries: &[&NamedObject],
) -> Result<Acting, AllocError>
    requires small { AreSmall schema.now (referred entries.now) }
    ensures { IfOk result (λ made. (objects : List NamedObject) → AreThere objects (referred entries.now) → made
        ≡ noted_of atomic (act_of schema.now request.now time) objects nothing_done (names (referred entries.now))) }
{
    let mut so_far = nothing_done(alloc);
    for entry in entries {
        act_on(alloc, schema, request, time, atomic, *entry, &mut so_far)?;
    }
    Ok(so_far)
}

/// What stays of an operation: where it is atomic and failed on an object, its errors alone.
pub(crate) fn settled(alloc: Global, made: Acting) -> Acting
    ensures { result ≡ settled made }
{
    if made.failures.items.is_empty() {
        return made;
    }
    let mut none = nothing_done(alloc);
    none.replies = made.failures;
    none
}
