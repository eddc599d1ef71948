//! The records of a log, counted by one way through the names that the log's begins: X.735, section 8.

ghost use Rattle.std.specs.Prelude.{◌≡◌, ◌∷◌, ◌++◌, [], false, IfOk, List, MatchOption, OnOk, Some};
ghost use Rattle.term_values.specs.Lengths.{octet_count};
ghost use Rattle.term_model.specs.declared.objects.NamedObject.{NamedObject};
ghost use Rattle.term_model.specs.Following.{entry_after};
ghost use Rattle.term_model.specs.LogRecords.{records_of};
ghost use Rattle.term_model.specs.NamedObjects.{IsByName};
ghost use Rattle.term_model.specs.ObjectOperation.{object_octets};
ghost use Rattle.mib_opening.specs.Counting.{AreSums};
ghost use Rattle.mib_opening.specs.Walks.{IsEnd};

use crate::record_tests::is_record_of;
use attribute_rules::sizes::weights;
use std::alloc::{AllocError, Global};
use term_model::ranged::Ranged;
use term_model::{AttrRecs, Name, Object, Set, StepLedger, Steps};
use term_values::Tag;
use term_values::leaf_lengths::{plus, with_header};

/// How many records there are, and how many octets they have: the greatest number where there are more.
#[derive(Drop)]
pub struct RecordSums {
    /// The number of records.
    pub records: u64,
    /// The sum of their sizes.
    pub octets: u64,
}

/// The size of a record: the octets of its attributes as SET OF Attribute.
fn record_octets(alloc: Global, records: &AttrRecs, object: &Object) -> Result<u64, AllocError>
    ensures { IfOk result (λ size. size ≡ octet_count (object_octets records.now object.now)) }
{
    let contents = weights(alloc, records, false, object.attrs.items.as_slice())?;
    Ok(with_header(true, Tag::SET, contents))
}

/// Adds an object, where it is a record of the log.
fn add_record(
    alloc: Global,
    schema: &Set,
    log: &Name,
    name: &Name,
    object: &Object,
    sums: &mut RecordSums,
) -> Result<(), AllocError>
    ensures { OnOk result ((found : List NamedObject) → AreSums schema.now found sums.old
        → AreSums schema.now
        (found ++ records_of schema.now log.now (record { name = name.now; object = object.now } ∷ [])) sums.new) }
{
    if is_record_of(alloc, schema, log, name, object)? {
        let size = record_octets(alloc, &schema.attributes, object)?;
        sums.records = plus(sums.records, 1);
        sums.octets = plus(sums.octets, size);
    }
    Ok(())
}

/// The next object behind this name, where the base begins its name.
fn next_below<'a, L: StepLedger, M: Ranged<L>>(
    mib: &'a M,
    base: &Name,
    here: &Name,
    steps: &mut Steps<L>,
) -> Option<(&'a Name, &'a Object)>
    ensures next { MatchOption result (IsEnd base.now here.now (M.objects mib.now))
        (λ next. entry_after (M.objects mib.now) here.now
        ≡ Some (record { name = next.0.now; object = next.1.now })) }
    ensures rising { IsByName (M.objects mib.now) }
{
    match mib.after(here, steps) {
        None => None,
        Some((next, object)) => {
            if next.starts_with(base) {
                Some((next, object))
            } else {
                None
            }
        }
    }
}

/// The records of a log: how many they are, and their octets.
pub fn record_sums<L: StepLedger, M: Ranged<L>>(
    alloc: Global,
    schema: &Set,
    mib: &M,
    log: &Name,
    steps: &mut Steps<L>,
) -> Result<RecordSums, AllocError>
    ensures { IfOk result (λ sums. AreSums schema.now (records_of schema.now log.now (M.objects mib.now)) sums) }
{
    let mut sums = RecordSums {
        records: 0,
        octets: 0,
    };
    let mut here = log;
    while let Some((next, object)) = next_below(mib, log, here, steps) {
        add_record(alloc, schema, log, next, object, &mut sums)?;
        here = next;
    }
    Ok(sums)
}
