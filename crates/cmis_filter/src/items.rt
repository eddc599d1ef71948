//! The items of a filter: X.711, section 7.5, type FilterItem.

ghost use Rattle.std.specs.Prelude.{◌≡◌, IfOk, IsTrue, is_ok, is_some};
ghost use Rattle.std.specs.List.{list_all};
ghost use Rattle.term_values.specs.MatchingKinds.MatchingRule.{Substrings};
ghost use Rattle.term_model.specs.declared.filter_item.Piece.{Piece};
ghost use Rattle.term_model.specs.FilterTests.{do_meet, is_true_item};
ghost use Rattle.term_model.specs.FilterTruth.{are_valid_pieces, held_value, is_same_ref, is_valid_item, pieces_value};
ghost use Rattle.term_model.specs.MatchTests.{do_match};
ghost use Rattle.cmis_filter.specs.Rising.{AreRising};

use crate::assertions::assertion;
use crate::comparing::Comparison;
use crate::held_values::value_in;
use crate::invalid_filter::InvalidFilter;
use term_model::{IdRef, Item, Object, Piece, Set};
use term_values::Value;

/// Whether both identifiers are the same.
fn is_same_ref(id: &IdRef, other: &IdRef) -> bool
    ensures { result ≡ is_same_ref id.now other.now }
{
    match (id, other) {
        (IdRef::Global(id), IdRef::Global(other)) => *id == *other,
        (IdRef::Local(number), IdRef::Local(other)) => *number == *other,
        _ => false,
    }
}

/// Whether each piece names this attribute.
pub fn all_name(pieces: &[Piece], id: &IdRef) -> bool
    ensures { result ≡ list_all (λ (piece : Piece). is_same_ref piece.given.id id.now) pieces.now }
{
    for piece in pieces {
        if !is_same_ref(&piece.given.id, id) {
            return false;
        }
    }
    true
}

/// Whether the pieces stand in the value of their attribute.
fn substrings(
    set: &Set,
    object: &Object,
    rising: bool,
    pieces: &[Piece],
    asserted: &Option<Value>,
) -> Result<bool, InvalidFilter>
    requires { IsTrue rising → AreRising object.now.attrs }
    ensures truth { IfOk result (λ holds. holds ≡ do_meet (do_match Substrings) asserted.now
        (pieces_value set.now.attributes object.now.attrs pieces.now)) }
    ensures valid { is_ok result ≡ are_valid_pieces set.now.attributes pieces.now asserted.now }
{
    match pieces {
        [] => Err(InvalidFilter),
        [first, others @ ..] => {
            if all_name(others, &first.given.id) {
                assertion(
                    set,
                    object,
                    rising,
                    Comparison::HasPieces,
                    &first.given.id,
                    asserted,
                )
            } else {
                Err(InvalidFilter)
            }
        }
    }
}

/// Whether the attribute is known and the object has it.
fn is_present(set: &Set, object: &Object, rising: bool, id: &IdRef) -> bool
    requires { IsTrue rising → AreRising object.now.attrs }
    ensures { result ≡ is_some (held_value set.now.attributes object.now.attrs id.now) }
{
    match id {
        IdRef::Local(_) => false,
        IdRef::Global(id) => match set.attributes.find(id) {
            None => false,
            Some(_) => value_in(object.attrs.items.as_slice(), rising, id).is_some(),
        },
    }
}

/// Whether the item is true of the object, or that it is invalid.
pub fn item_truth(
    set: &Set,
    object: &Object,
    rising: bool,
    item: &Item,
) -> Result<bool, InvalidFilter>
    requires { IsTrue rising → AreRising object.now.attrs }
    ensures truth { IfOk result (λ holds. holds ≡ is_true_item set.now.attributes object.now.attrs item.now) }
    ensures valid { is_ok result ≡ is_valid_item set.now.attributes item.now }
{
    match item {
        Item::Equality(given) => {
            assertion(
                set,
                object,
                rising,
                Comparison::Equal,
                &given.id,
                &given.value,
            )
        }
        Item::Substrings(pieces, asserted) => {
            substrings(set, object, rising, pieces.items.as_slice(), asserted)
        }
        Item::GreaterOrEqual(given) => {
            assertion(
                set,
                object,
                rising,
                Comparison::AtLeast,
                &given.id,
                &given.value,
            )
        }
        Item::LessOrEqual(given) => {
            assertion(
                set,
                object,
                rising,
                Comparison::AtMost,
                &given.id,
                &given.value,
            )
        }
        Item::Present(id) => Ok(is_present(set, object, rising, id)),
        Item::SubsetOf(given) => {
            assertion(
                set,
                object,
                rising,
                Comparison::Within,
                &given.id,
                &given.value,
            )
        }
        Item::SupersetOf(given) => {
            assertion(
                set,
                object,
                rising,
                Comparison::Around,
                &given.id,
                &given.value,
            )
        }
        Item::Meets(given) => {
            assertion(
                set,
                object,
                rising,
                Comparison::Meeting,
                &given.id,
                &given.value,
            )
        }
    }
}
