//! What a Set does to one object: X.711, section 7.4.

ghost use Rattle.std.specs.Prelude.{◌≡◌, ◌++◌, ◌∷◌, ◌≤◌, [], Some, IfOk, OnOk, map, min};
ghost use Rattle.term_model.specs.declared.effect.What.TheVariants as what;
ghost use Rattle.term_model.specs.declared.results.SetInfoStatus.TheVariants as set_info;
ghost use Rattle.term_model.specs.CmisErrors.{set_list_error};
ghost use Rattle.term_model.specs.Effects.{TellsEffect};
ghost use Rattle.term_model.specs.BoundClasses.{object_size};
ghost use Rattle.term_model.specs.Modifications.{modified, unmodified};
ghost use Rattle.term_model.specs.ObjectSet.{diff_of, differing, left_by, modified_attributes, set_effect, set_with};
ghost use Rattle.term_model.specs.ObjectSet.{stays};
ghost use Rattle.term_values.specs.Moment.{moment_text};
ghost use Rattle.term_model.specs.Replies.{single};
ghost use Rattle.term_model.specs.ResultValues.{attributes_value};
ghost use Rattle.term_values.specs.ResultSyntaxes.{attributes_result};
ghost use Rattle.object_modifications.specs.Settling.{made_of, modified_among};

use crate::held_values::{told, value_octets};
use crate::id_sets::id_set;
use crate::seen_once::seen_of;
use crate::settling::{Modified, modify_all, unmodified};
use attribute_rules::sizes::weights;
use result_contents::errors::set_list_error;
use result_contents::results::attributes_contents;
use std::alloc::{AllocError, Global};
use term_model::{
    AttrRecs, Attribute, AttributeValue, Change, Changes, CmisError, Diff, Diffs, Effect, Name,
    Object, Oids, OneRefusal, Patch, Reply, Set, SetInfoStatus, Source, Sources, What,
};
use term_values::Oid;
use time_text::write_time;

/// An attribute with its value before and its value now.
fn diff_of(
    alloc: Global,
    records: &AttrRecs,
    before: &Attribute,
    now: &Attribute,
) -> Result<Diff, AllocError>
    ensures { IfOk result (λ diff. diff ≡ diff_of records.now before.now now.now) }
{
    let attribute = before.id.copy(alloc)?;
    let old = value_octets(alloc, records, before)?;
    let new = value_octets(alloc, records, now)?;
    Ok(Diff {
        attribute,
        old,
        new,
    })
}

/// The attributes that have another value than before.
fn differing(
    alloc: Global,
    records: &AttrRecs,
    before: &[Attribute],
    now: &[Attribute],
) -> Result<Vec<Diff>, AllocError>
    ensures { IfOk result (λ diffs. diffs.items ≡ differing records.now before.now now.now) }
{
    let mut diffs = Vec::new(alloc);
    let count = before.len().min(now.len());
    for i in 0..count {
        if !before[i].value.is_same(&now[i].value) {
            diffs.push(diff_of(alloc, records, &before[i], &now[i])?)?;
        }
    }
    Ok(diffs)
}

/// The attributes that modifications changed, with their values at the end.
fn modified_attributes(
    alloc: Global,
    records: &AttrRecs,
    made: &Modified,
) -> Result<Vec<AttributeValue>, AllocError>
    ensures { IfOk result (λ told. told.items ≡ modified_among records.now made.now.done made.now.object.attrs) }
{
    let done = id_set(alloc, made.done.items.as_slice())?;
    let mut values = Vec::new(alloc);
    for attribute in &made.object.attrs.items {
        if done.contains(&attribute.id) {
            values.push(told(alloc, records, attribute)?)?;
        }
    }
    Ok(values)
}

/// Nothing differs.
fn unchanged(alloc: Global, reply: Reply) -> Effect
    ensures { result ≡ record { changes = []; reply = reply; sources = [] } }
{
    Effect {
        changes: Patch {
            items: Vec::new(alloc),
        },
        reply,
        sources: Sources {
            items: Vec::new(alloc),
        },
    }
}

/// The change set of an object under its name.
fn patched(alloc: Global, name: &Name, object: Object) -> Result<Patch, AllocError>
    ensures { IfOk result (λ patch. patch ≡ (name.now, Some object) ∷ []) }
{
    let name = name.copy(alloc)?;
    let mut items = Vec::new(alloc);
    items.push((name, Some(object)))?;
    Ok(Patch { items })
}

/// The source that tells which attributes of an object differ.
fn sourced(alloc: Global, name: &Name, class: &Oid, diffs: Vec<Diff>) -> Result<Sources, AllocError>
    ensures { IfOk result (λ sources. sources ≡ record {
      name = name.now;
      class = class.now;
      what = what.Differs diffs.items;
    } ∷ []) }
{
    let name = name.copy(alloc)?;
    let class = class.copy(alloc)?;
    let what = What::Differs(Diffs { items: diffs });
    let mut items = Vec::new(alloc);
    items.push(Source { name, class, what })?;
    Ok(Sources { items })
}

/// What an operation leaves: an object that differs is left under its name, and is the source of an event.
fn left_by(
    alloc: Global,
    schema: &Set,
    name: &Name,
    before: &Object,
    now: Object,
    reply: Reply,
) -> Result<Effect, AllocError>
    ensures { IfOk result (λ effect. effect ≡ left_by schema.now name.now before.now now reply) }
{
    let diffs = differing(
        alloc,
        &schema.attributes,
        before.attrs.items.as_slice(),
        now.attrs.items.as_slice(),
    )?;
    if diffs.as_slice().is_empty() {
        return Ok(unchanged(alloc, reply));
    }
    let sources = sourced(alloc, name, &now.class, diffs)?;
    let changes = patched(alloc, name, now)?;
    Ok(Effect {
        changes,
        reply,
        sources,
    })
}

/// The SetResult of an object with these attributes.
fn set_result(
    alloc: Global,
    class: &Oid,
    name: &Name,
    time: &[u8],
    values: &[AttributeValue],
) -> Result<Reply, AllocError>
    ensures { IfOk result (λ reply. reply
        ≡ single attributes_result (attributes_value class.now name.now time.now values.now)) }
{
    attributes_contents(alloc, class, name.parts.as_slice(), time, values)?.single()
}

/// Appends attributes to the errors of a setListError.
fn add_values(
    values: Vec<AttributeValue>,
    statuses: &mut Vec<SetInfoStatus>,
) -> Result<(), AllocError>
    ensures { OnOk result (statuses.new.items ≡ statuses.old.items ++ map set_info.Attribute values.items) }
{
    for value in values {
        statuses.push(SetInfoStatus::Attribute(value))?;
    }
    Ok(())
}

/// A setListError with these errors and attributes.
fn listed_error(
    alloc: Global,
    class: &Oid,
    name: &Name,
    time: &[u8],
    values: Vec<AttributeValue>,
    mut statuses: Vec<SetInfoStatus>,
) -> Result<CmisError, AllocError>
    ensures { IfOk result (λ error. error ≡ set_list_error class.now name.now time.now
        (statuses.items ++ map set_info.Attribute values.items)) }
{
    add_values(values, &mut statuses)?;
    set_list_error(
        alloc,
        class,
        name.parts.as_slice(),
        time,
        statuses.as_slice(),
    )
}

/// The Set of which each modification was made.
fn all_made(
    alloc: Global,
    schema: &Set,
    name: &Name,
    before: &Object,
    made: Modified,
    time: &[u8],
) -> Result<Effect, AllocError>
    ensures { IfOk result (λ effect. effect ≡ left_by schema.now name.now before.now made.object
        (single attributes_result (attributes_value before.now.class name.now time.now
        (modified_attributes schema.now (made_of made))))) }
{
    let values = modified_attributes(alloc, &schema.attributes, &made)?;
    let reply = set_result(alloc, &before.class, name, time, values.as_slice())?;
    left_by(alloc, schema, name, before, made.object, reply)
}

/// The Set of which some modifications were made, which stay, and others failed.
fn some_made(
    alloc: Global,
    schema: &Set,
    name: &Name,
    before: &Object,
    made: Modified,
    time: &[u8],
) -> Result<Effect, AllocError>
    ensures { IfOk result (λ effect. effect ≡ left_by schema.now name.now before.now made.object
        (Reply.Error (set_list_error before.now.class name.now time.now
        (made.failures.items ++ map set_info.Attribute (modified_attributes schema.now (made_of made)))))) }
{
    let values = modified_attributes(alloc, &schema.attributes, &made)?;
    let error = listed_error(alloc, &before.class, name, time, values, made.failures)?;
    left_by(
        alloc,
        schema,
        name,
        before,
        made.object,
        Reply::Error(error),
    )
}

/// Whether some modification was made, and the Set isn't atomic.
fn stays(atomic: bool, done: &Oids) -> bool
    ensures { result ≡ stays atomic done.now }
{
    if atomic {
        return false;
    }
    !done.items.as_slice().is_empty()
}

/// What comes of a Set, by what its modifications made.
fn set_with(
    alloc: Global,
    schema: &Set,
    name: &Name,
    before: &Object,
    made: Modified,
    atomic: bool,
    time: &[u8],
) -> Result<Effect, OneRefusal>
    ensures { TellsEffect
        (set_with schema.now name.now before.now (made_of made) atomic time.now made.failures.items) result }
{
    if made.failures.as_slice().is_empty() {
        let effect = all_made(alloc, schema, name, before, made, time)?;
        return Ok(effect);
    }
    if stays(atomic, &made.done) {
        let effect = some_made(alloc, schema, name, before, made, time)?;
        return Ok(effect);
    }
    let failures = made.failures.as_slice();
    let error = set_list_error(alloc, &before.class, name.parts.as_slice(), time, failures)?;
    Err(OneRefusal::Cmis(error))
}

/// The modifications of a Set, made one after the other.
fn make_all(
    alloc: Global,
    schema: &Set,
    name: &Name,
    object: &Object,
    changes: &[Change],
) -> Result<Modified, AllocError>
    requires small { object_size schema.now object.now ≤ 16384 }
    ensures { IfOk result (λ made. made_of made ≡ modified schema.now name.now (unmodified object.now) changes.now) }
{
    let records = &schema.attributes;
    let seen = seen_of(alloc, schema, object)?;
    let size = weights(alloc, records, seen.bound, object.attrs.items.as_slice())?;
    let mut made = unmodified(alloc, object, size)?;
    modify_all(
        alloc,
        schema,
        name.parts.as_slice(),
        &seen,
        changes,
        &mut made,
    )?;
    Ok(made)
}

/// The Set of an object, granted at the moment that `time` tells as GeneralizedTime.
fn set_at(
    alloc: Global,
    schema: &Set,
    name: &Name,
    object: &Object,
    changes: &[Change],
    atomic: bool,
    time: &[u8],
) -> Result<Effect, OneRefusal>
    requires small { object_size schema.now object.now ≤ 16384 }
    ensures { TellsEffect
        (set_effect schema.now name.now object.now changes.now atomic time.now) result }
{
    let made = make_all(alloc, schema, name, object, changes)?;
    set_with(alloc, schema, name, object, made, atomic, time)
}

/// The Set of an object, granted at a moment in seconds since 1970. Modifications are made in the order of their list,
/// each on what those before it left. Where none fails, the result has the attributes that they changed, with their
/// values at the end. Where some fail, an atomic Set changes nothing and is answered by a setListError with their
/// errors; one by best effort keeps what the others did, and has both in its setListError, or is refused where there is
/// nothing to keep. A moment past the year 9998 is taken as its last second.
///
/// The object that is set must not be longer than 16,384 octets, as each object of the agent is.
pub fn set_one(
    alloc: Global,
    set: &Set,
    name: &Name,
    object: &Object,
    changes: &Changes,
    atomic: bool,
    time: u64,
) -> Result<Effect, OneRefusal>
    requires small { object_size set.now object.now ≤ 16384 }
    ensures { TellsEffect (set_effect set.now name.now object.now changes.now atomic
        (moment_text (min time 253370764799))) result }
{
    let text = write_time(time);
    set_at(
        alloc,
        set,
        name,
        object,
        changes.items.as_slice(),
        atomic,
        &text,
    )
}
