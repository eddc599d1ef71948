//! What modifications make of an object: X.711, section 7.4, m-Set. Each is made on what those before it left.

ghost use Rattle.std.specs.Prelude.{◌≡◌, ◌<◌, ◌∷◌, ◌++◌, [], ℕ, List, Some, IfOk, OnOk, get_or, length, replicate};
ghost use Rattle.attribute_rules.specs.Places.{place_of};
ghost use Rattle.term_model.specs.declared.object.Attribute.{Attribute};
ghost use Rattle.term_model.specs.declared.schema.Set.{Set};
ghost use Rattle.term_model.specs.ClassAttributes.{property_of, syntax_of};
ghost use Rattle.term_model.specs.Modifications.{attribute_of, failed, modified, modified_by, tried, tried_value};
ghost use Rattle.term_model.specs.Modifications.{unmodified};
ghost use Rattle.object_modifications.specs.declared.knowing.Knowledge.TheVariants as known;
ghost use Rattle.object_modifications.specs.Knowing.{AreKnown, Knows};
ghost use Rattle.object_modifications.specs.Trying.{ChangesAt, IsMade};
ghost use Rattle.object_modifications.specs.Settling.{TellsModified, freed_by, made_of};
ghost use Rattle.object_modifications.specs.StatusPlaces.{status_places};

use crate::knowing::{Knowledge, forget, known_at, note, untried};
use crate::log_status::{ends_full, take_full};
use crate::modifying::{Outcome, change_value};
use crate::seen_once::Seen;
use attribute_rules::lookups::{is_operator, modifiable, syntax_of};
use attribute_rules::places::place_of;
use std::alloc::{AllocError, Global};
use term_model::{
    AttrRecs, Attribute, Change, IdRef, Object, Oids, Property, Rdn, Set, SetInfoStatus,
};
use term_values::{Oid, Syntax};

/// noSuchAttribute: X.711, section 7.5.
const NO_SUCH_ATTRIBUTE: i64 = 5;

/// invalidAttributeValue: X.711, section 7.5.
const INVALID_ATTRIBUTE_VALUE: i64 = 6;

/// invalidOperation: X.711, section 7.5.
const INVALID_OPERATION: i64 = 24;

/// invalidOperator: X.711, section 7.5.
const INVALID_OPERATOR: i64 = 25;

/// An object on its way through modifications.
#[derive(Drop)]
pub(crate) struct Modified {
    /// The object as they left it.
    pub(crate) object: Object,
    /// The octets that its attributes take.
    pub(crate) size: u64,
    /// What is known of the values of its attributes, in their order.
    pub(crate) knowledge: Vec<Knowledge>,
    /// The errors of those that failed.
    pub(crate) failures: Vec<SetInfoStatus>,
    /// The attributes of those that did not.
    pub(crate) done: Oids,
}

/// A copy of an identifier, where there is one.
fn copy_binding(alloc: Global, binding: &Option<Oid>) -> Result<Option<Oid>, AllocError>
    ensures { IfOk result (λ copy. copy ≡ binding.now) }
{
    match binding {
        Some(id) => Ok(Some(id.copy(alloc)?)),
        None => Ok(None),
    }
}

/// A copy of an object.
fn copy_object(alloc: Global, object: &Object) -> Result<Object, AllocError>
    ensures { IfOk result (λ copy. copy ≡ object.now) }
{
    let class = object.class.copy(alloc)?;
    let binding = copy_binding(alloc, &object.binding)?;
    let chosen = object.chosen.copy(alloc)?;
    let attrs = object.attrs.copy(alloc)?;
    Ok(Object {
        class,
        binding,
        chosen,
        attrs,
    })
}

/// An object before the first modification, with the octets that its attributes take.
pub(crate) fn unmodified(alloc: Global, object: &Object, size: u64) -> Result<Modified, AllocError>
    ensures made { IfOk result (λ made. made_of made ≡ unmodified object.now) }
    ensures size { IfOk result (λ made. made.size ≡ size) }
    ensures untried { IfOk result (λ made. made.knowledge.items ≡ replicate (length object.now.attrs) known.Untried) }
{
    let knowledge = untried(alloc, object.attrs.items.as_slice().len())?;
    let object = copy_object(alloc, object)?;
    Ok(Modified {
        object,
        size,
        knowledge,
        failures: Vec::new(alloc),
        done: Oids {
            items: Vec::new(alloc),
        },
    })
}

/// A copy of an identifier.
fn copy_id(alloc: Global, id: &IdRef) -> Result<IdRef, AllocError>
    ensures { IfOk result (λ copy. copy ≡ id.now) }
{
    match id {
        IdRef::Global(id) => Ok(IdRef::Global(id.copy(alloc)?)),
        IdRef::Local(number) => Ok(IdRef::Local(*number)),
    }
}

/// Notes that a modification failed.
fn fail(alloc: Global, change: &Change, status: i64, made: &mut Modified) -> Result<(), AllocError>
    ensures noted { OnOk result (made_of made.new ≡ failed (made_of made.old) change.now status) }
    ensures kept { (made.new.object ≡ made.old.object) × (made.new.size ≡ made.old.size)
        × (made.new.knowledge.items ≡ made.old.knowledge.items) }
{
    let id = copy_id(alloc, &change.id)?;
    made.failures.push(SetInfoStatus::Error {
        status,
        operator: change.operator,
        id,
    })?;
    Ok(())
}

/// Takes logFull away where another value of the attribute with the identifier ends it, and forgets what is known of the
/// values from which it is taken.
fn end_full(
    alloc: Global,
    records: &AttrRecs,
    seen: &Seen,
    id: &Oid,
    attributes: &mut Vec<Attribute>,
    knowledge: &mut Vec<Knowledge>,
) -> Result<(), AllocError>
    ensures attributes { OnOk result (seen.now.statuses.items ≡ status_places records.now 0 attributes.old.items
        → attributes.new.items ≡ freed_by records.now seen.now.bound id.now attributes.old.items) }
    ensures knowledge { OnOk result ((schema : Set) → (class : List ℕ) → schema.attributes ≡ records.now
        → seen.now.statuses.items ≡ status_places records.now 0 attributes.old.items
        → AreKnown schema class attributes.old.items knowledge.old.items
        → AreKnown schema class attributes.new.items knowledge.new.items) }
{
    if ends_full(records, seen.bound, id) {
        take_full(alloc, records, seen.statuses.as_slice(), attributes)?;
        forget(knowledge, seen.statuses.as_slice());
    }
    Ok(())
}

/// Notes that the attribute with the identifier has another value, with which the attributes take so many octets.
fn settle(
    alloc: Global,
    records: &AttrRecs,
    seen: &Seen,
    id: &Oid,
    size: u64,
    made: &mut Modified,
) -> Result<(), AllocError>
    ensures { OnOk result ((schema : Set) → schema.attributes ≡ records.now
        → IsMade schema seen.now made.old.object size made.old.knowledge.items
        → (made_of made.new ≡ record (made_of made.old) {
          object = record made.old.object {
            attrs = freed_by records.now seen.now.bound id.now made.old.object.attrs;
          };
          done = made.old.done ++ id.now ∷ [];
        })
        × IsMade schema seen.now made.new.object made.new.size made.new.knowledge.items) }
{
    end_full(
        alloc,
        records,
        seen,
        id,
        &mut made.object.attrs.items,
        &mut made.knowledge,
    )?;
    made.size = size;
    let named = id.copy(alloc)?;
    made.done.items.push(named)?;
    Ok(())
}

/// Changes the value of the attribute at a place as a modification says, where it may have what comes of it.
fn change_at(
    alloc: Global,
    records: &AttrRecs,
    seen: &Seen,
    total: u64,
    property: &Property,
    syntax: &Syntax,
    change: &Change,
    told: Knowledge,
    place: usize,
    attributes: &mut Vec<Attribute>,
) -> Result<Outcome, AllocError>
    requires within { place < length attributes.old.items }
    requires known { (d : Attribute)
        → Knows syntax.now property.now.permitted (get_or attributes.old.items place d).value told }
    ensures { IfOk result (ChangesAt records.now seen.now total property.now syntax.now change.now place
        attributes.old.items attributes.new.items) }
{
    change_value(
        alloc,
        records,
        seen,
        total,
        property,
        syntax,
        change,
        told,
        &mut attributes[place],
    )
}

/// Makes a modification of the attribute at a place, which has these properties and this syntax.
fn modify_at(
    alloc: Global,
    schema: &Set,
    seen: &Seen,
    change: &Change,
    id: &Oid,
    place: usize,
    property: &Property,
    syntax: &Syntax,
    made: &mut Modified,
) -> Result<(), AllocError>
    requires made { IsMade schema.now seen.now made.old.object made.old.size made.old.knowledge.items }
    requires place { place_of made.old.object.attrs id.now ≡ Some place }
    requires property { property_of schema.now made.old.object.class id.now ≡ Some property.now }
    requires syntax { syntax_of schema.now.attributes id.now ≡ Some syntax.now }
    ensures { OnOk result ((held : Attribute) → attribute_of made.old.object.attrs id.now ≡ Some held
        → TellsModified schema.now seen.now made.old made.new change.now id.now
        (tried_value schema.now made.old.object change.now id.now held property.now syntax.now)) }
{
    let told = known_at(made.knowledge.as_slice(), place);
    let came = change_at(
        alloc,
        &schema.attributes,
        seen,
        made.size,
        property,
        syntax,
        change,
        told,
        place,
        &mut made.object.attrs.items,
    )?;
    note(&mut made.knowledge, place, came.told);
    match came.size {
        Some(size) => settle(alloc, &schema.attributes, seen, id, size, made),
        None => fail(alloc, change, INVALID_ATTRIBUTE_VALUE, made),
    }
}

/// Makes a modification of the attribute with this identifier.
fn modify_named(
    alloc: Global,
    schema: &Set,
    name: &[Rdn],
    seen: &Seen,
    change: &Change,
    id: &Oid,
    made: &mut Modified,
) -> Result<(), AllocError>
    requires made { IsMade schema.now seen.now made.old.object made.old.size made.old.knowledge.items }
    ensures { OnOk result (TellsModified schema.now seen.now made.old made.new change.now id.now
        (tried schema.now name.now made.old.object change.now id.now)) }
{
    let place = match place_of(made.object.attrs.items.as_slice(), seen.rising, id) {
        Some(place) => place,
        None => return fail(alloc, change, NO_SUCH_ATTRIBUTE, made),
    };
    if !is_operator(change.operator) {
        return fail(alloc, change, INVALID_OPERATOR, made);
    }
    let class = &made.object.class;
    let property = match modifiable(schema, &seen.properties, name, class, change.operator, id) {
        Some(property) => property,
        None => return fail(alloc, change, INVALID_OPERATION, made),
    };
    match syntax_of(&schema.attributes, id) {
        Some(syntax) => modify_at(
            alloc, schema, seen, change, id, place, property, syntax, made,
        ),
        None => fail(alloc, change, INVALID_ATTRIBUTE_VALUE, made),
    }
}

/// Makes a modification.
fn modify(
    alloc: Global,
    schema: &Set,
    name: &[Rdn],
    seen: &Seen,
    change: &Change,
    made: &mut Modified,
) -> Result<(), AllocError>
    requires { IsMade schema.now seen.now made.old.object made.old.size made.old.knowledge.items }
    ensures made { OnOk result
        (made_of made.new ≡ modified_by schema.now name.now (made_of made.old) change.now change.now.id) }
    ensures known { OnOk result
        (IsMade schema.now seen.now made.new.object made.new.size made.new.knowledge.items) }
{
    match &change.id {
        IdRef::Global(id) => modify_named(alloc, schema, name, seen, change, id, made),
        IdRef::Local(_) => fail(alloc, change, NO_SUCH_ATTRIBUTE, made),
    }
}

/// Makes modifications in the order of their list.
pub(crate) fn modify_all(
    alloc: Global,
    schema: &Set,
    name: &[Rdn],
    seen: &Seen,
    changes: &[Change],
    made: &mut Modified,
) -> Result<(), AllocError>
    requires { IsMade schema.now seen.now made.old.object made.old.size made.old.knowledge.items }
    ensures made { OnOk result (made_of made.new ≡ modified schema.now name.now (made_of made.old) changes.now) }
    ensures known { OnOk result
        (IsMade schema.now seen.now made.new.object made.new.size made.new.knowledge.items) }
{
    for change in changes {
        modify(alloc, schema, name, seen, change, made)?;
    }
    Ok(())
}
