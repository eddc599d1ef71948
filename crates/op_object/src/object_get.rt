//! What a Get does to one object: X.711, section 7.4.

ghost use Rattle.std.specs.Prelude.{◌≡◌, ◌++◌, ◌&&◌, ◌||◌, [], None, Some, ℕ, List, IfOk, OnOk, map, min};
ghost use Rattle.term_model.specs.declared.request.IdRef.{IdRef};
ghost use Rattle.term_model.specs.declared.results.GetInfoStatus.TheVariants as get_info;
ghost use Rattle.term_model.specs.CmisErrors.{get_list_error};
ghost use Rattle.term_model.specs.Effects.{TellsEffect};
ghost use Rattle.term_model.specs.ObjectGet.{get_effect, got, got_with, is_same_id, told};
ghost use Rattle.term_values.specs.Moment.{moment_text};
ghost use Rattle.term_model.specs.ObjectOperation.{is_readable, readable};
ghost use Rattle.op_object.specs.IdSets.{has_id, has_ref};
ghost use Rattle.op_object.specs.GetSteps.{absent_errors, absent_of, denied_errors, is_there, values_given};

use crate::asked_ids::{SeenIds, asked_sets, attribute_ids, note_id};
use crate::held_values::told;
use crate::property_lists::readable_attributes;
use result_contents::errors::get_list_error;
use result_contents::results::attributes_contents;
use std::alloc::{AllocError, Global};
use std::collections::BTreeSet;
use term_model::{
    AttrRecs, Attribute, AttributeValue, CmisError, Effect, GetInfoStatus, IdRef, Ids, Name,
    Object, OneRefusal, Patch, Rdn, Set, Sources,
};
use term_values::Oid;
use time_text::write_time;

/// noSuchAttribute: X.711, section 7.5.
const NO_SUCH_ATTRIBUTE: i64 = 5;

/// accessDenied: X.711, section 7.5.
const ACCESS_DENIED: i64 = 2;

/// The identifier is that of an attribute, or of a group that is used.
fn is_there(held: &BTreeSet<Oid>, used: &BTreeSet<Oid>, id: &IdRef) -> bool
    ensures { result ≡ is_there held.now used.now id.now }
{
    match id {
        IdRef::Global(id) => held.contains(id) || used.contains(id),
        IdRef::Local(_) => false,
    }
}

/// A copy of an identifier.
fn copy_id(alloc: Global, id: &IdRef) -> Result<IdRef, AllocError>
    ensures { IfOk result (λ copy. copy ≡ id.now) }
{
    match id {
        IdRef::Global(id) => Ok(IdRef::Global(id.copy(alloc)?)),
        IdRef::Local(number) => Ok(IdRef::Local(*number)),
    }
}

/// Appends noSuchAttribute for an identifier that is new and not there.
fn add_absent(
    alloc: Global,
    id: &IdRef,
    held: &BTreeSet<Oid>,
    used: &BTreeSet<Oid>,
    seen: &mut SeenIds,
    errors: &mut Vec<GetInfoStatus>,
) -> Result<(), AllocError>
    ensures added { OnOk result (errors.new.items ≡ errors.old.items
        ++ absent_of (has_ref seen.old.globals seen.old.locals id.now) (is_there held.now used.now id.now) id.now) }
    ensures noted { OnOk result ((e : IdRef) → has_ref seen.new.globals seen.new.locals e
        ≡ (is_same_id id.now e || has_ref seen.old.globals seen.old.locals e)) }
{
    let fresh = note_id(alloc, id, seen)?;
    if !fresh {
        return Ok(());
    }
    if is_there(held, used, id) {
        return Ok(());
    }
    let id = copy_id(alloc, id)?;
    errors.push(GetInfoStatus::Error {
        status: NO_SUCH_ATTRIBUTE,
        id,
    })?;
    Ok(())
}

/// noSuchAttribute for each identifier that is not there, once.
fn absent_errors(
    alloc: Global,
    asked: &[IdRef],
    held: &BTreeSet<Oid>,
    used: &BTreeSet<Oid>,
) -> Result<Vec<GetInfoStatus>, AllocError>
    ensures { IfOk result (λ errors. errors.items ≡ absent_errors held.now used.now [] asked.now) }
{
    let mut seen = SeenIds {
        globals: BTreeSet::new(alloc),
        locals: BTreeSet::new(alloc),
    };
    let mut errors = Vec::new(alloc);
    for id in asked {
        add_absent(alloc, id, held, used, &mut seen, &mut errors)?;
    }
    Ok(errors)
}

/// Appends accessDenied for each attribute that is wanted and may not be read.
fn add_denied(
    alloc: Global,
    attributes: &[Attribute],
    wanted: &BTreeSet<Oid>,
    readable: &BTreeSet<Oid>,
    errors: &mut Vec<GetInfoStatus>,
) -> Result<(), AllocError>
    ensures { OnOk result (errors.new.items
        ≡ errors.old.items ++ denied_errors wanted.now readable.now attributes.now) }
{
    for attribute in attributes {
        if wanted.contains(&attribute.id) && !readable.contains(&attribute.id) {
            let id = IdRef::Global(attribute.id.copy(alloc)?);
            errors.push(GetInfoStatus::Error {
                status: ACCESS_DENIED,
                id,
            })?;
        }
    }
    Ok(())
}

/// The attribute is wanted, and managers may read it.
fn is_given(wanted: &BTreeSet<Oid>, readable: &BTreeSet<Oid>, attribute: &Attribute) -> bool
    ensures { result ≡ (has_id wanted.now attribute.now.id && has_id readable.now attribute.now.id) }
{
    wanted.contains(&attribute.id) && readable.contains(&attribute.id)
}

/// The attributes that are wanted and may be read, with their values.
fn values_given(
    alloc: Global,
    records: &AttrRecs,
    attributes: &[Attribute],
    wanted: &BTreeSet<Oid>,
    readable: &BTreeSet<Oid>,
) -> Result<Vec<AttributeValue>, AllocError>
    ensures { IfOk result (λ given. given.items
        ≡ values_given records.now wanted.now readable.now attributes.now) }
{
    let mut given = Vec::new(alloc);
    for attribute in attributes {
        if is_given(wanted, readable, attribute) {
            given.push(told(alloc, records, attribute)?)?;
        }
    }
    Ok(given)
}

/// The result of a Get without errors.
fn got(
    alloc: Global,
    class: &Oid,
    name: &[Rdn],
    time: &[u8],
    given: &[AttributeValue],
) -> Result<Effect, AllocError>
    ensures { IfOk result (λ effect. effect ≡ got class.now name.now time.now given.now) }
{
    let reply = attributes_contents(alloc, class, name, time, given)?.single()?;
    Ok(Effect {
        changes: Patch {
            items: Vec::new(alloc),
        },
        reply,
        sources: Sources {
            items: Vec::new(alloc),
        },
    })
}

/// Appends attributes.
fn add_values(given: Vec<AttributeValue>, errors: &mut Vec<GetInfoStatus>) -> Result<(), AllocError>
    ensures { OnOk result (errors.new.items ≡ errors.old.items ++ map get_info.Attribute given.items) }
{
    for value in given {
        errors.push(GetInfoStatus::Attribute(value))?;
    }
    Ok(())
}

/// A getListError with these errors and attributes.
fn listed_error(
    alloc: Global,
    class: &Oid,
    name: &[Rdn],
    time: &[u8],
    given: Vec<AttributeValue>,
    mut errors: Vec<GetInfoStatus>,
) -> Result<CmisError, AllocError>
    ensures { IfOk result (λ error. error ≡ get_list_error class.now name.now time.now
        (errors.items ++ map get_info.Attribute given.items)) }
{
    add_values(given, &mut errors)?;
    get_list_error(alloc, class, name, time, errors.as_slice())
}

/// The result, or where there are errors a getListError.
fn got_with(
    alloc: Global,
    class: &Oid,
    name: &[Rdn],
    time: &[u8],
    given: Vec<AttributeValue>,
    errors: Vec<GetInfoStatus>,
) -> Result<Effect, OneRefusal>
    ensures { TellsEffect (got_with class.now name.now time.now given.items errors.items) result }
{
    if errors.as_slice().is_empty() {
        let effect = got(alloc, class, name, time, given.as_slice())?;
        return Ok(effect);
    }
    let error = listed_error(alloc, class, name, time, given, errors)?;
    Err(OneRefusal::Cmis(error))
}

/// The Get of the attributes that a list asks for.
fn get_listed(
    alloc: Global,
    schema: &Set,
    name: &[Rdn],
    object: &Object,
    asked: &[IdRef],
    time: &[u8],
) -> Result<Effect, OneRefusal>
    ensures { TellsEffect (get_effect schema.now name.now object.now (Some asked.now) time.now) result }
{
    let attributes = object.attrs.items.as_slice();
    let sets = asked_sets(alloc, schema, object, asked)?;
    let held = attribute_ids(alloc, attributes)?;
    let readable = readable_attributes(alloc, schema, &object.class)?;
    let mut errors = absent_errors(alloc, asked, &held, &sets.used)?;
    add_denied(alloc, attributes, &sets.members, &readable, &mut errors)?;
    let records = &schema.attributes;
    let given = values_given(alloc, records, attributes, &sets.members, &readable)?;
    got_with(alloc, &object.class, name, time, given, errors)
}

/// The attributes that may be read, with their values.
fn readable_values(
    alloc: Global,
    schema: &Set,
    object: &Object,
) -> Result<Vec<AttributeValue>, AllocError>
    ensures { IfOk result (λ given. given.items
        ≡ map (told schema.now.attributes) (readable schema.now object.now)) }
{
    let ids = readable_attributes(alloc, schema, &object.class)?;
    let mut given = Vec::new(alloc);
    for attribute in &object.attrs.items {
        if ids.contains(&attribute.id) {
            given.push(told(alloc, &schema.attributes, attribute)?)?;
        }
    }
    Ok(given)
}

/// The Get of all attributes that may be read.
fn get_all(
    alloc: Global,
    schema: &Set,
    name: &[Rdn],
    object: &Object,
    time: &[u8],
) -> Result<Effect, OneRefusal>
    ensures { TellsEffect (get_effect schema.now name.now object.now None time.now) result }
{
    let given = readable_values(alloc, schema, object)?;
    let effect = got(alloc, &object.class, name, time, given.as_slice())?;
    Ok(effect)
}

/// The Get of an object, granted at the moment that `time` tells as GeneralizedTime.
pub fn get_at(
    alloc: Global,
    schema: &Set,
    name: &[Rdn],
    object: &Object,
    asked: &Option<Ids>,
    time: &[u8],
) -> Result<Effect, OneRefusal>
    ensures { TellsEffect (get_effect schema.now name.now object.now asked.now time.now) result }
{
    match asked {
        Some(asked) => get_listed(alloc, schema, name, object, asked.items.as_slice(), time),
        None => get_all(alloc, schema, name, object, time),
    }
}

/// The Get of an object, granted at a moment in seconds since 1970: the result with the attributes that a list asks
/// for, or where an identifier is of no attribute of the object or of one that managers may not read, a getListError
/// with the errors and the other attributes. Without a list all attributes that may be read are given. A Get changes
/// nothing. A moment past the year 9998 is taken as its last second.
pub fn get_one(
    alloc: Global,
    set: &Set,
    name: &Name,
    object: &Object,
    ids: &Option<Ids>,
    time: u64,
) -> Result<Effect, OneRefusal>
    ensures { TellsEffect (get_effect set.now name.now object.now ids.now (moment_text (min time 253370764799)))
        result }
{
    let text = write_time(time);
    get_at(alloc, set, name.parts.as_slice(), object, ids, &text)
}
