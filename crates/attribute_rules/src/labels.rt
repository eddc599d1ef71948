//! Attributes that are known by their labels: X.721; docs/PROFILE.md.

ghost use Rattle.std.specs.Prelude.{◌≡◌, codes};
ghost use Rattle.std.specs.Option.{option_copied};
ghost use Rattle.term_model.specs.BoundClasses.{tells_of_records};
ghost use Rattle.term_model.specs.ClassAttributes.{is_labelled, syntax_of};
ghost use Rattle.term_model.specs.Modifiable.{is_filled};

use term_model::AttrRecs;
use term_values::Oid;

/// The attribute has this label.
pub fn is_labelled(records: &AttrRecs, label: &[u8], id: &Oid) -> bool
    ensures { result ≡ is_labelled records.now label.now id.now }
{
    match records.find(id) {
        Some(of_attribute) => of_attribute.label.as_slice() == label,
        None => false,
    }
}

/// The attribute is one that the agent fills and no manager modifies: objectClass, nameBinding or packages.
pub fn is_filled(records: &AttrRecs, id: &Oid) -> bool
    ensures { result ≡ is_filled records.now id.now }
{
    is_labelled(records, b"objectClass", id)
        || is_labelled(records, b"nameBinding", id)
        || is_labelled(records, b"packages", id)
}

/// The attribute is one of a log that tells of its records: availabilityStatus, currentLogSize or numberOfRecords.
pub fn tells_of_records(records: &AttrRecs, id: &Oid) -> bool
    ensures { result ≡ tells_of_records records.now id.now }
{
    is_labelled(records, b"availabilityStatus", id)
        || is_labelled(records, b"currentLogSize", id)
        || is_labelled(records, b"numberOfRecords", id)
}
