//! The objects of the INSTANCES sections, one after the other, on those that were created before them.
//! docs/PROFILE.md, section 16.

ghost use Rattle.std.specs.Prelude.{◌≡◌, ◌+◌, [], drop, IfErr, IfOk, Ok, OnOk};
ghost use Rattle.term_model.specs.Opening.{bad, create_instance, opened, opened_from, opened_instances, opened_one};
ghost use Rattle.term_model.specs.Opening.{opened_root, placed, root_place, asking_of, create_root};
ghost use Rattle.term_model.specs.WellFormedObjects.{AreGood};
ghost use Rattle.term_model.specs.WholeSet.{IsWhole};
ghost use Rattle.opening_laws.specs.Encodable.{IsEncodable};
ghost use Rattle.mib_opening.specs.Refusals.{HasRefusal};

use crate::instance_asking::asking_of;
use crate::log_counts::count_logs;
use crate::refusal::OpeningRefusal;
use mo_list::ListMib as Mib;
use object_maps::ObjectMap;
use op_life::{create_named, create_root};
use std::alloc::{AllocError, Global};
use term_model::{CmisError, InstRec, Name, Object, Set, StepLedger, Steps};

/// The most objects of a system. This is the project's own limit.
const MOST_OBJECTS: u64 = 100_000;

/// The number of processingFailure: X.711, section 9.
const PROCESSING_FAILURE: u32 = 10;

/// What is told where there is no ROOT, where it isn't the first instance, and where it is a second one.
const BAD_ROOT: u32 = 0;

/// The index of the first instance.
const FIRST: u32 = 1;

/// The index that is told where there is no ROOT.
const NONE: u32 = 0;

/// The index behind one; no list in memory is so long that 32 bits don't hold it.
fn next_index(index: u32) -> Result<u32, OpeningRefusal>
    ensures told { IfOk result (λ next. next ≡ index + 1) }
    ensures refused { IfErr result (λ refusal. refusal ≡ OpeningRefusal.Memory) }
{
    match index.checked_add(1) {
        Some(next) => Ok(next),
        None => Err(OpeningRefusal::Memory),
    }
}

/// The refusal of an instance whose creation has an error.
fn refused(index: u32, error: &CmisError) -> OpeningRefusal
    ensures { HasRefusal (bad index error.now.code) result }
{
    match u32::try_from(error.code) {
        Ok(error) => OpeningRefusal::BadInstance { index, error },
        Err(_) => OpeningRefusal::Memory,
    }
}

/// Puts an object under its name, where there are fewer than 100,000.
fn put_object<L: StepLedger>(
    alloc: Global,
    index: u32,
    mib: &mut Mib<L>,
    name: Name,
    object: Object,
    steps: &mut Steps<L>,
) -> Result<(), OpeningRefusal>
    ensures placed { OnOk result (placed index mib.old name (Ok object) ≡ Ok mib.new) }
    ensures refused { IfErr result (HasRefusal (placed index mib.old name (Ok object))) }
{
    if mib.len() >= MOST_OBJECTS {
        return Err(OpeningRefusal::BadInstance {
            index,
            error: PROCESSING_FAILURE,
        });
    }
    match mib.put(alloc, name, object, steps) {
        Ok(_) => Ok(()),
        Err(_) => Err(OpeningRefusal::Memory),
    }
}

/// The same of what a creation answered.
fn place<L: StepLedger>(
    alloc: Global,
    index: u32,
    mib: &mut Mib<L>,
    name: &Name,
    made: Result<Object, CmisError>,
    steps: &mut Steps<L>,
) -> Result<(), OpeningRefusal>
    ensures placed { OnOk result (placed index mib.old name.now made ≡ Ok mib.new) }
    ensures refused { IfErr result (HasRefusal (placed index mib.old name.now made)) }
{
    match made {
        Ok(object) => {
            let name = name.copy(alloc)?;
            put_object(alloc, index, mib, name, object, steps)
        }
        Err(error) => Err(refused(index, &error)),
    }
}

/// The object of an instance below the root, or the error of its creation.
fn create_instance<L: StepLedger>(
    alloc: Global,
    schema: &Set,
    mib: &Mib<L>,
    instance: &InstRec,
    steps: &mut Steps<L>,
) -> Result<Result<Object, CmisError>, AllocError>
    ensures { IfOk result (λ made. made ≡ create_instance schema.now mib.now instance.now) }
{
    let asking = asking_of(alloc, schema, instance)?;
    create_named(alloc, schema, mib, &asking, &instance.name, steps)
}

/// The next instance.
fn open_one<L: StepLedger>(
    alloc: Global,
    schema: &Set,
    index: u32,
    mib: &mut Mib<L>,
    instance: &InstRec,
    steps: &mut Steps<L>,
) -> Result<(), OpeningRefusal>
    ensures opened { OnOk result (opened_one schema.now index mib.old instance.now ≡ Ok mib.new) }
    ensures refused { IfErr result (HasRefusal (opened_one schema.now index mib.old instance.now)) }
{
    if instance.root {
        return Err(OpeningRefusal::BadInstance {
            index,
            error: BAD_ROOT,
        });
    }
    let made = create_instance(alloc, schema, mib, instance, steps)?;
    place(alloc, index, mib, &instance.name, made, steps)
}

/// The instances behind the first.
fn open_others<L: StepLedger>(
    alloc: Global,
    schema: &Set,
    mib: &mut Mib<L>,
    others: &[InstRec],
    steps: &mut Steps<L>,
) -> Result<(), OpeningRefusal>
    ensures opened { OnOk result (opened_from schema.now 2 others.now mib.old ≡ Ok mib.new) }
    ensures refused { IfErr result (HasRefusal (opened_from schema.now 2 others.now mib.old)) }
{
    let mut index = FIRST;
    for instance in others {
        index = next_index(index)?;
        open_one(alloc, schema, index, mib, instance, steps)?;
    }
    Ok(())
}

/// The root alone.
fn open_root<L: StepLedger>(
    alloc: Global,
    schema: &Set,
    first: &InstRec,
    steps: &mut Steps<L>,
) -> Result<Mib<L>, OpeningRefusal>
    ensures opened { IfOk result (λ mib.
        placed 1 [] [] (create_root schema.now (asking_of schema.now first.now)) ≡ Ok mib) }
    ensures refused { IfErr result
        (HasRefusal (placed 1 [] [] (create_root schema.now (asking_of schema.now first.now)))) }
{
    let asking = asking_of(alloc, schema, first)?;
    let made = create_root(alloc, schema, &asking)?;
    let mut mib = Mib::empty();
    place(alloc, FIRST, &mut mib, &Name::root(alloc), made, steps)?;
    Ok(mib)
}

/// At which place the ROOT stands among the instances behind the first, counted from 2, or 0 where there is none.
fn root_place(others: &[InstRec]) -> Result<u32, OpeningRefusal>
    ensures told { IfOk result (λ place. place ≡ root_place 2 others.now) }
    ensures refused { IfErr result (λ refusal. refusal ≡ OpeningRefusal.Memory) }
{
    let mut index = FIRST;
    for other in others {
        index = next_index(index)?;
        if other.root {
            return Ok(index);
        }
    }
    Ok(NONE)
}

/// The instances, the first of which is to be the ROOT.
fn open_instances<L: StepLedger>(
    alloc: Global,
    schema: &Set,
    instances: &[InstRec],
    steps: &mut Steps<L>,
) -> Result<Mib<L>, OpeningRefusal>
    ensures opened { IfOk result (λ mib. opened_instances schema.now instances.now ≡ Ok mib) }
    ensures refused { IfErr result (HasRefusal (opened_instances schema.now instances.now)) }
{
    match instances.split_first() {
        Some((first, others)) => open_from_root(alloc, schema, first, others, steps),
        None => Err(OpeningRefusal::BadInstance {
            index: NONE,
            error: BAD_ROOT,
        }),
    }
}

/// The first instance and those behind it.
fn open_from_root<L: StepLedger>(
    alloc: Global,
    schema: &Set,
    first: &InstRec,
    others: &[InstRec],
    steps: &mut Steps<L>,
) -> Result<Mib<L>, OpeningRefusal>
    ensures opened { IfOk result (λ mib. opened_root schema.now first.now others.now ≡ Ok mib) }
    ensures refused { IfErr result (HasRefusal (opened_root schema.now first.now others.now)) }
{
    if !first.root {
        let index = root_place(others)?;
        return Err(OpeningRefusal::BadInstance {
            index,
            error: BAD_ROOT,
        });
    }
    let mut mib = open_root(alloc, schema, first, steps)?;
    open_others(alloc, schema, &mut mib, others, steps)?;
    Ok(mib)
}

/// The instances, and then the counts of the logs.
fn open_and_count<L: StepLedger>(
    alloc: Global,
    schema: &Set,
    steps: &mut Steps<L>,
) -> Result<Mib<L>, OpeningRefusal>
    ensures opened { IfOk result (λ objects. opened schema.now ≡ Ok objects) }
    ensures refused { IfErr result (HasRefusal (opened schema.now)) }
{
    let mut mib = open_instances(alloc, schema, schema.instances.items.as_slice(), steps)?;
    count_logs(alloc, schema, &mut mib, steps)?;
    Ok(mib)
}

/// The objects at the opening, in which each bound log tells of its records. Each look into the map is counted on
/// `steps`, also before a refusal.
pub fn opening<L: StepLedger>(
    alloc: Global,
    schema: &Set,
    steps: &mut Steps<L>,
) -> Result<Mib<L>, OpeningRefusal>
    // the objects are those of the instances, one after the other
    ensures opened { IfOk result (λ objects. opened schema.now ≡ Ok objects) }

    // they are well-formed, where the schema is whole and everything in it has an encoding
    ensures good { IfOk result (λ objects. IsWhole schema.now → IsEncodable schema.now → AreGood schema.now objects) }

    // the instance that can't be created, with the error of its creation; of want of memory nothing is said
    ensures refused { IfErr result (HasRefusal (opened schema.now)) }
{
    open_and_count(alloc, schema, steps)
}
