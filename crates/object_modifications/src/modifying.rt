//! One modification of an attribute's value: X.711, section 7.4, m-Set, and section 7.5, type ModifyOperator.

ghost use Rattle.std.specs.Prelude.{◌≡◌, ◌&&◌, Some, IfOk, nat_le, true};
ghost use Rattle.term_values.specs.FitTest.{value_fits};
ghost use Rattle.term_model.specs.declared.packages.Property.{Property};
ghost use Rattle.term_model.specs.declared.request.Change.{Change};
ghost use Rattle.term_model.specs.ClassAttributes.{is_permitted};
ghost use Rattle.term_model.specs.Modifications.{given_value, modified_value};
ghost use Rattle.attribute_rules.specs.Weights.{is_within};
ghost use Rattle.object_modifications.specs.declared.knowing.Knowledge.TheVariants as known;
ghost use Rattle.object_modifications.specs.Knowing.{Knows};
ghost use Rattle.object_modifications.specs.Trying.{TellsOutcome, TellsWith, changes_members};

use crate::knowing::{Knowledge, known_by, known_length, tried_once};
use crate::modified_values::{MOST_VALUE, change_members, given_members, may_be, modified_value};
use crate::seen_once::Seen;
use crate::weighing::{named_length, weight_by};
use attribute_rules::sizes::is_within;
use fitting_members::{count_octets, length_by, take_back};
use std::alloc::{AllocError, Global};
use term_model::{AttrRecs, Attribute, Change, Property};
use term_values::leaf_lengths::plus;
use term_values::{Oid, Syntax, Value};

/// What came of a modification of an attribute's value.
#[derive(Drop)]
pub(crate) struct Outcome {
    /// The octets that the attributes of the object take with the new value, where it has one.
    pub(crate) size: Option<u64>,
    /// What is known of the value that the attribute then has.
    pub(crate) told: Knowledge,
}

/// The octets that the attributes of an object take where the value of one of them takes so many, and took so many
/// before.
fn size_with(
    alloc: Global,
    records: &AttrRecs,
    seen: &Seen,
    total: u64,
    id: &Oid,
    before: u64,
    now: u64,
) -> Result<u64, AllocError>
    ensures { IfOk result (TellsWith records.now seen.now total id.now before now) }
{
    let named = named_length(alloc, id)?;
    let less = weight_by(records, seen.bound, id, named, before);
    let more = weight_by(records, seen.bound, id, named, now);
    Ok(plus(total.saturating_sub(less), more))
}

/// A value of so many octets is not too long, nor is its object, whose attributes take so many with it.
fn is_short(length: u64, size: u64) -> bool
    ensures { result ≡ (nat_le length 8192 && is_within size) }
{
    length <= MOST_VALUE && is_within(size)
}

/// Adds members to a value, or removes them, where it then may be the attribute's.
fn change_fitting(
    alloc: Global,
    records: &AttrRecs,
    seen: &Seen,
    total: u64,
    property: &Property,
    syntax: &Syntax,
    change: &Change,
    given: &Value,
    octets: u64,
    held: &mut Attribute,
) -> Result<Outcome, AllocError>
    requires given { given_value change.now ≡ Some given.now }
    requires operator { changes_members change.now.operator ≡ true }
    requires known { Knows syntax.now property.now.permitted held.old.value (known.Fits octets) }
    ensures { IfOk result (TellsOutcome records.now seen.now total property.now syntax.now change.now held.old held.new) }
{
    let before = length_by(syntax, &held.value, octets);
    let came = change_members(
        alloc,
        syntax,
        property,
        change,
        octets,
        given,
        &mut held.value,
    )?;
    let length = length_by(syntax, &held.value, came.octets);
    let size = size_with(alloc, records, seen, total, &held.id, before, length)?;
    if came.allowed && is_short(length, size) {
        return Ok(Outcome {
            size: Some(size),
            told: known_by(came.octets),
        });
    }
    take_back(&mut held.value, came.undo)?;
    Ok(Outcome {
        size: None,
        told: Knowledge::Fits(octets),
    })
}

/// Gives an attribute a value that fits and is permitted, where it and the object aren't too long then. `told` is what
/// is known of the value that it has.
fn give_fitting(
    alloc: Global,
    records: &AttrRecs,
    seen: &Seen,
    total: u64,
    syntax: &Syntax,
    told: Knowledge,
    value: Value,
    held: &mut Attribute,
) -> Result<Outcome, AllocError>
    ensures { IfOk result (λ outcome. (property : Property) → (change : Change)
        → modified_value syntax.now property held.old.value change ≡ Some value
        → (value_fits syntax.now value && is_permitted property.permitted value) ≡ true
        → Knows syntax.now property.permitted held.old.value told
        → TellsOutcome records.now seen.now total property syntax.now change held.old held.new outcome) }
{
    let before = known_length(syntax, &held.value, told);
    let octets = count_octets(syntax, &value);
    let length = length_by(syntax, &value, octets);
    let size = size_with(alloc, records, seen, total, &held.id, before, length)?;
    if !is_short(length, size) {
        return Ok(Outcome { size: None, told });
    }
    held.value = value;
    Ok(Outcome {
        size: Some(size),
        told: known_by(octets),
    })
}

/// Gives an attribute the value that a modification tells, where it may have it.
fn give_value(
    alloc: Global,
    records: &AttrRecs,
    seen: &Seen,
    total: u64,
    property: &Property,
    syntax: &Syntax,
    change: &Change,
    told: Knowledge,
    held: &mut Attribute,
) -> Result<Outcome, AllocError>
    requires known { Knows syntax.now property.now.permitted held.old.value told }
    ensures { IfOk result (TellsOutcome records.now seen.now total property.now syntax.now change.now held.old held.new) }
{
    let value = match modified_value(alloc, syntax, property, &held.value, change)? {
        Some(value) => value,
        None => return Ok(Outcome { size: None, told }),
    };
    if !may_be(alloc, syntax, property, &value)? {
        return Ok(Outcome { size: None, told });
    }
    give_fitting(alloc, records, seen, total, syntax, told, value, held)
}

/// Changes the value of an attribute with these properties as a modification says, where it may have what comes of it.
/// `told` is what is known of the value that it has.
pub(crate) fn change_value(
    alloc: Global,
    records: &AttrRecs,
    seen: &Seen,
    total: u64,
    property: &Property,
    syntax: &Syntax,
    change: &Change,
    told: Knowledge,
    held: &mut Attribute,
) -> Result<Outcome, AllocError>
    requires known { Knows syntax.now property.now.permitted held.old.value told }
    ensures { IfOk result (TellsOutcome records.now seen.now total property.now syntax.now change.now held.old held.new) }
{
    let given = match given_members(change) {
        Some(given) => given,
        None => {
            return give_value(
                alloc, records, seen, total, property, syntax, change, told, held,
            );
        }
    };
    let told = tried_once(alloc, syntax, property, &held.value, told)?;
    match told {
        Knowledge::Fits(octets) => change_fitting(
            alloc, records, seen, total, property, syntax, change, given, octets, held,
        ),
        Knowledge::Untried | Knowledge::Misfits => {
            give_value(
                alloc, records, seen, total, property, syntax, change, told, held,
            )
        }
    }
}
