//! The objects in which each bound log tells of its records, the deepest logs first: X.735, section 8;
//! docs/PROFILE.md, section 15.

ghost use Rattle.std.specs.Prelude.{◌≡◌, ◌∷◌, ◌++◌, [], IfOk, List, OnOk, map, true};
ghost use Rattle.std.specs.Option.{option_map};
ghost use Rattle.term_model.specs.declared.schema.Set.{Set};
ghost use Rattle.term_model.specs.declared.objects.NamedObject.{NamedObject};
ghost use Rattle.term_model.specs.AgentWritten.{is_counter};
ghost use Rattle.term_model.specs.LogRecords.{counted, counted_log, records_of};
ghost use Rattle.term_model.specs.NamedObjects.{IsByName, object_at};
ghost use Rattle.mib_opening.specs.Counting.{AreCounts, AreSums, recounted_attribute};
ghost use Rattle.mib_opening.specs.LogOrder.{log_names, recounted};
ghost use Rattle.mib_opening.specs.Walks.{behind};

use crate::log_records::{RecordSums, record_sums};
use attribute_rules::is_bound_log;
use attribute_rules::labels::is_labelled;
use mo_list::ListMib as Mib;
use object_maps::ObjectMap;
use std::alloc::{AllocError, Global};
use term_model::ranged::Ranged;
use term_model::{Attribute, Attrs, Name, Names, Object, Set, StepLedger, Steps};
use term_values::{Oid, Value};

/// The label of the attribute that tells how many octets the records have.
const SIZE: &[u8] = b"currentLogSize";

/// The label of the attribute that tells how many records there are.
const NUMBER: &[u8] = b"numberOfRecords";

/// How many records a log has, and how many octets these have.
#[derive(Drop)]
pub struct LogCounts {
    /// The number of records.
    pub records: i64,
    /// The sum of their sizes.
    pub octets: i64,
}

/// The sums as numbers that values hold. More octets than such a number are more than memory has.
fn counts_of(sums: &RecordSums) -> Result<LogCounts, AllocError>
    ensures { IfOk result (λ counts. (schema : Set) (records : List NamedObject)
        → AreSums schema records sums.now → AreCounts schema records counts) }
{
    match (i64::try_from(sums.records), i64::try_from(sums.octets)) {
        (Ok(records), Ok(octets)) => Ok(LogCounts { records, octets }),
        _ => Err(AllocError),
    }
}

/// The attribute is one by which a bound log tells how many records it has, or how many octets these have.
fn is_counter(schema: &Set, id: &Oid) -> bool
    ensures { result ≡ is_counter schema.now true id.now }
{
    is_labelled(&schema.attributes, SIZE, id) || is_labelled(&schema.attributes, NUMBER, id)
}

/// An attribute of a bound log that has so many records.
fn recounted_attribute(
    alloc: Global,
    schema: &Set,
    counts: &LogCounts,
    held: &Attribute,
) -> Result<Attribute, AllocError>
    ensures { IfOk result (λ attribute. attribute ≡ recounted_attribute schema.now counts.now held.now) }
{
    if !is_counter(schema, &held.id) {
        return held.copy(alloc);
    }
    let count = if is_labelled(&schema.attributes, NUMBER, &held.id) {
        counts.records
    } else {
        counts.octets
    };
    Ok(Attribute {
        id: held.id.copy(alloc)?,
        value: Value::integer(count),
    })
}

/// The attributes of a bound log that has so many records.
fn recounted_attributes(
    alloc: Global,
    schema: &Set,
    counts: &LogCounts,
    attributes: &[Attribute],
) -> Result<Attrs, AllocError>
    ensures { IfOk result (λ attrs. attrs ≡ map (recounted_attribute schema.now counts.now) attributes.now) }
{
    let mut items = Vec::new(alloc);
    for held in attributes {
        items.push(recounted_attribute(alloc, schema, counts, held)?)?;
    }
    Ok(Attrs { items })
}

/// A copy of an identifier, where there is one.
fn copied(alloc: Global, id: &Option<Oid>) -> Result<Option<Oid>, AllocError>
    ensures { IfOk result (λ copy. copy ≡ id.now) }
{
    match id {
        Some(id) => Ok(Some(id.copy(alloc)?)),
        None => Ok(None),
    }
}

/// A bound log that has so many records.
fn counted_log(
    alloc: Global,
    schema: &Set,
    counts: &LogCounts,
    object: &Object,
) -> Result<Object, AllocError>
    ensures { IfOk result (λ log. (records : List NamedObject) → AreCounts schema.now records counts.now
        → log ≡ counted_log schema.now records object.now) }
{
    let class = object.class.copy(alloc)?;
    let binding = copied(alloc, &object.binding)?;
    let chosen = object.chosen.copy(alloc)?;
    let attrs = recounted_attributes(alloc, schema, counts, object.attrs.items.as_slice())?;
    Ok(Object {
        class,
        binding,
        chosen,
        attrs,
    })
}

/// The log of a name with the counts of its records.
fn log_told<L: StepLedger>(
    alloc: Global,
    schema: &Set,
    mib: &Mib<L>,
    log: &Name,
    steps: &mut Steps<L>,
) -> Result<Option<Object>, AllocError>
    ensures { IfOk result (λ told. told
        ≡ option_map (counted_log schema.now (records_of schema.now log.now mib.now)) (object_at mib.now log.now)) }
{
    let sums = record_sums(alloc, schema, mib, log, steps)?;
    let counts = counts_of(&sums)?;
    match mib.at(log, steps) {
        Some(object) => Ok(Some(counted_log(alloc, schema, &counts, object)?)),
        None => Ok(None),
    }
}

/// Lets the log of a name tell of its records.
fn recount<L: StepLedger>(
    alloc: Global,
    schema: &Set,
    mib: &mut Mib<L>,
    log: &Name,
    steps: &mut Steps<L>,
) -> Result<(), AllocError>
    ensures { OnOk result (mib.new ≡ recounted schema.now log.now mib.old) }
{
    if let Some(object) = log_told(alloc, schema, mib, log, steps)? {
        let name = log.copy(alloc)?;
        if mib.put(alloc, name, object, steps).is_err() {
            return Err(AllocError);
        }
    }
    Ok(())
}

/// Adds a name, where the object is a bound log.
fn add_log(
    alloc: Global,
    schema: &Set,
    name: &Name,
    object: &Object,
    logs: &mut Names,
) -> Result<(), AllocError>
    ensures { OnOk result (logs.new
        ≡ logs.old ++ log_names schema.now (record { name = name.now; object = object.now } ∷ [])) }
{
    if is_bound_log(alloc, schema, &object.class)? {
        logs.items.push(name.copy(alloc)?)?;
    }
    Ok(())
}

/// Adds the names of the bound logs behind a name.
fn add_logs<L: StepLedger, M: Ranged<L>>(
    alloc: Global,
    schema: &Set,
    mib: &M,
    name: &Name,
    logs: &mut Names,
    steps: &mut Steps<L>,
) -> Result<(), AllocError>
    ensures { OnOk result (logs.new ≡ logs.old ++ log_names schema.now (behind name.now (M.objects mib.now))) }
{
    let mut here = name;
    while let Some((next, object)) = mib.after(here, steps) {
        add_log(alloc, schema, next, object, logs)?;
        here = next;
    }
    Ok(())
}

/// The names of the bound logs by their order.
fn log_names<L: StepLedger, M: Ranged<L>>(
    alloc: Global,
    schema: &Set,
    mib: &M,
    steps: &mut Steps<L>,
) -> Result<Names, AllocError>
    ensures names { IfOk result (λ logs. logs ≡ log_names schema.now (M.objects mib.now)) }
    ensures rising { OnOk result (IsByName (M.objects mib.now)) }
{
    let root = Name::root(alloc);
    let mut logs = Names {
        items: Vec::new(alloc),
    };
    if let Some(object) = mib.at(&root, steps) {
        add_log(alloc, schema, &root, object, &mut logs)?;
    }
    add_logs(alloc, schema, mib, &root, &mut logs, steps)?;
    Ok(logs)
}

/// Lets each bound log tell of its records, the last one by the order of names first, so that a log that is itself a
/// record is measured as it stands in the end. Each log looks at the names that its own one begins, and at one more.
pub fn count_logs<L: StepLedger>(
    alloc: Global,
    schema: &Set,
    mib: &mut Mib<L>,
    steps: &mut Steps<L>,
) -> Result<(), AllocError>
    ensures { OnOk result (mib.new ≡ counted schema.now mib.old) }
{
    let logs = log_names(alloc, schema, mib, steps)?;
    for i in (0..logs.items.as_slice().len()).rev() {
        recount(alloc, schema, mib, &logs.items[i], steps)?;
    }
    Ok(())
}
