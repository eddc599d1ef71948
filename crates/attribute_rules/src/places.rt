//! Where an attribute stands among those of an object, which has them by rising identifier: X.720, section 5.

ghost use Rattle.std.specs.Prelude.{◌≡◌, ◌<◌, IfSome, length, true};
ghost use Rattle.std.specs.Cmp.Lexicographic.{slice_cmp};
ghost use Rattle.std.specs.Option.{option_copied};
ghost use Rattle.std.specs.Ordering.{nat_cmp};
ghost use Rattle.term_model.specs.Modifications.{attribute_of};
ghost use Rattle.attribute_rules.specs.Places.{are_rising, place_of, rise_from};

use term_model::Attribute;
use term_values::Oid;

/// The identifiers rise from one on.
fn rise_from(first: &Oid, attributes: &[Attribute]) -> bool
    ensures { result ≡ rise_from first.now attributes.now }
{
    let mut before = first;
    for attribute in attributes {
        if before >= &attribute.id {
            return false;
        }
        before = &attribute.id;
    }
    true
}

/// Whether the identifiers of attributes rise, each once, as those of each object of an agent do.
pub fn are_rising(attributes: &[Attribute]) -> bool
    ensures { result ≡ are_rising attributes.now }
{
    match attributes {
        [] => true,
        [first, rest @ ..] => rise_from(&first.id, rest),
    }
}

/// The place of the attribute with this identifier among rising ones, found by halves.
fn halved_place(attributes: &[Attribute], id: &Oid) -> Option<usize>
    ensures bound { IfSome result (λ place. place < length attributes.now) }
    ensures place { are_rising attributes.now ≡ true → result ≡ place_of attributes.now id.now }
{
    let found = attributes.binary_search_by(
        |attribute|
            ensures { result ≡ slice_cmp nat_cmp attribute.now.id id.entry.now }
        { attribute.id.cmp(id) },
    );
    match found {
        Ok(place) => Some(place),
        Err(_) => None,
    }
}

/// The place of the first attribute with this identifier.
fn first_place(attributes: &[Attribute], id: &Oid) -> Option<usize>
    ensures bound { IfSome result (λ place. place < length attributes.now) }
    ensures place { result ≡ place_of attributes.now id.now }
{
    for place in 0..attributes.len() {
        if attributes[place].id == *id {
            return Some(place);
        }
    }
    None
}

/// The place of the first attribute with this identifier, where there is one: by halves where it is known that the
/// identifiers rise, else from the front.
pub fn place_of(attributes: &[Attribute], rising: bool, id: &Oid) -> Option<usize>
    ensures bound { IfSome result (λ place. place < length attributes.now) }
    ensures place { (rising ≡ true → are_rising attributes.now ≡ true) → result ≡ place_of attributes.now id.now }
{
    if rising {
        halved_place(attributes, id)
    } else {
        first_place(attributes, id)
    }
}

/// The attribute with this identifier, found in the same way.
pub fn attribute_of<'a>(
    attributes: &'a [Attribute],
    rising: bool,
    id: &Oid,
) -> Option<&'a Attribute>
    ensures { (rising ≡ true → are_rising attributes.now ≡ true)
        → option_copied result ≡ attribute_of attributes.now id.now }
{
    match place_of(attributes, rising, id) {
        Some(place) => Some(&attributes[place]),
        None => None,
    }
}
