//! Whether a filter is valid: X.711, section 7.5, type CMISFilter.

ghost use Rattle.std.specs.Prelude.{◌≡◌};
ghost use Rattle.term_model.specs.FilterTruth.{are_valid, are_valid_pieces, is_valid, is_valid_assertion, is_valid_item};
ghost use Rattle.cmis_filter.specs.Comparisons.{rule_of};

use crate::comparing::{Comparison, can_compare};
use crate::given_reading::named_attribute;
use crate::items::all_name;
use term_model::{Filter, FilterForm, Filters, IdRef, Item, Piece, Set};
use term_values::Value;

/// Whether what is asserted of an attribute is valid.
fn is_valid_assertion(
    set: &Set,
    comparison: Comparison,
    id: &IdRef,
    asserted: &Option<Value>,
) -> bool
    ensures { result ≡ is_valid_assertion set.now.attributes (rule_of comparison) id.now asserted.now }
{
    match named_attribute(set, id) {
        Some(known) => {
            can_compare(comparison, &known.syntax, &known.rules) && asserted.is_some()
        }
        None => true,
    }
}

/// Whether there is a piece, all pieces name one attribute, and what they assert of it is valid.
fn are_valid_pieces(set: &Set, pieces: &[Piece], asserted: &Option<Value>) -> bool
    ensures { result ≡ are_valid_pieces set.now.attributes pieces.now asserted.now }
{
    match pieces {
        [] => false,
        [first, others @ ..] => {
            let id = &first.given.id;
            all_name(others, id) && is_valid_assertion(set, Comparison::HasPieces, id, asserted)
        }
    }
}

/// Whether the item is valid.
fn is_valid_item(set: &Set, item: &Item) -> bool
    ensures { result ≡ is_valid_item set.now.attributes item.now }
{
    let (comparison, given) = match item {
        Item::Substrings(pieces, asserted) => {
            return are_valid_pieces(set, pieces.items.as_slice(), asserted);
        }
        Item::Present(_) => return true,
        Item::Equality(given) => (Comparison::Equal, given),
        Item::GreaterOrEqual(given) => (Comparison::AtLeast, given),
        Item::LessOrEqual(given) => (Comparison::AtMost, given),
        Item::SubsetOf(given) => (Comparison::Within, given),
        Item::SupersetOf(given) => (Comparison::Around, given),
        Item::Meets(given) => (Comparison::Meeting, given),
    };
    is_valid_assertion(set, comparison, &given.id, &given.value)
}

/// Whether no item of the filter is invalid, wherever it stands.
#[cycle(validity)]
pub fn is_valid(set: &Set, filter: &Filter) -> bool
    ensures { result ≡ is_valid set.now.attributes filter.now }
{
    match &filter.form {
        FilterForm::Item(item) => is_valid_item(set, item),
        FilterForm::And(filters) => are_valid(set, filters),
        FilterForm::Or(filters) => are_valid(set, filters),
        FilterForm::Not(negated) => is_valid(set, negated),
    }
}

/// Whether no item of the filters is invalid.
#[cycle(validity)]
fn are_valid(set: &Set, filters: &Filters) -> bool
    ensures { result ≡ are_valid set.now.attributes filters.now }
{
    for filter in filters.items.as_slice() {
        if !is_valid(set, filter) {
            return false;
        }
    }
    true
}
