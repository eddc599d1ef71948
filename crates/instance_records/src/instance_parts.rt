//! What records of instances are made of: linked parts, and which record is that of which attribute.

ghost use Rattle.std.specs.Prelude.{◌≡◌, ◌<◌, List, IfOk, IfSome, length};
ghost use Rattle.std.specs.Option.{option_copied};
ghost use Rattle.asn1_names.specs.ModuleTerms.{ModuleTerm};
ghost use Rattle.linked_types.specs.KnownParts.{identifier_at};
ghost use Rattle.schema_records.specs.MemberRecords.{AreAttributes};
ghost use Rattle.instance_records.specs.KnownRecords.{AreKnownParts, ArePlaces, TellsPlace, TellsRecord};
ghost use Rattle.instance_records.specs.KnownRecords.{place_behind};

use linked_parts::Linked;
use linked_parts::linked::LinkedAttribute;
use std::alloc::{AllocError, Global};
use term_model::AttrRec;
use term_values::Oid;

/// What the records of instances are made of.
#[derive(Clone, Copy)]
pub(crate) struct InstanceParts<'p> {
    pub(crate) alloc: Global,
    pub(crate) linked: &'p Linked,
    /// The records of the attributes of the linked parts.
    pub(crate) records: &'p [AttrRec],
    /// For each attribute of the linked parts the place of its record, where it has one.
    pub(crate) places: &'p [Option<usize>],
}

/// The place of the next record, where it is that of an attribute.
fn record_place(attribute: &LinkedAttribute, records: &[AttrRec], next: usize) -> Option<usize>
    ensures { TellsPlace attribute.now records.now next result }
{
    let Some(id) = &attribute.head.identifier else {
        return None;
    };
    let Some(record) = records.get(next) else {
        return None;
    };
    if *id == record.id { Some(next) } else { None }
}

/// The place of the record that is the next one then.
fn place_behind(records: &[AttrRec], next: usize, place: Option<usize>) -> usize
    ensures { IfSome place (λ found. next < length records.now) → result ≡ place_behind next place }
{
    if place.is_some() && next < records.len() {
        next + 1
    } else {
        next
    }
}

/// For each attribute of the linked parts the place of its record: records stand in the order of the attributes.
pub(crate) fn record_places(
    alloc: Global,
    linked: &Linked,
    records: &[AttrRec],
) -> Result<Vec<Option<usize>>, AllocError>
    ensures { IfOk result (λ places. (ms : List ModuleTerm) →
        AreAttributes ms linked.now 0 linked.now.attributes.items records.now →
        ArePlaces ms linked.now records.now places.items) }
{
    let mut places = Vec::new(alloc);
    let mut next = 0usize;
    for attribute in linked.attributes.iter() {
        let place = record_place(attribute, records, next);
        places.push(place)?;
        next = place_behind(records, next, place);
    }
    Ok(places)
}

impl<'p> InstanceParts<'p> {
    /// The record of an attribute.
    pub(crate) fn attribute_record(&self, attribute: usize) -> Option<&'p AttrRec>
        ensures { (ms : List ModuleTerm) → AreKnownParts ms self.now →
            TellsRecord ms self.now.linked.now attribute (option_copied result) }
    {
        match self.places.get(attribute) {
            Some(place) => match *place {
                Some(record) => self.records.get(record),
                None => None,
            },
            None => None,
        }
    }

    /// The identifier of a class.
    pub(crate) fn class_id(&self, place: usize) -> Option<&'p Oid>
        ensures { option_copied result ≡ identifier_at (λ x. x.head) self.now.linked.now.classes.items place }
    {
        match self.linked.classes.get(place) {
            Some(part) => part.head.identifier.as_ref(),
            None => None,
        }
    }

    /// The identifier of a package.
    pub(crate) fn package_id(&self, place: usize) -> Option<&'p Oid>
        ensures { option_copied result ≡ identifier_at (λ x. x.head) self.now.linked.now.packages.items place }
    {
        match self.linked.packages.get(place) {
            Some(part) => part.head.identifier.as_ref(),
            None => None,
        }
    }
}
