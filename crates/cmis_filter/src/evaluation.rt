//! Whether a filter is true of an object: X.711, section 7.5, type CMISFilter.

ghost use Rattle.std.specs.Prelude.{◌≡◌, ◌↔◌, IfOk, IsErr, IsTrue, false, is_ok};
ghost use Rattle.term_model.specs.FilterTests.{are_true_of, is_some_true_of, is_true_of};
ghost use Rattle.term_model.specs.FilterTruth.{IsTrueOf, are_valid, is_valid};
ghost use Rattle.cmis_filter.specs.Rising.{AreRising};

use crate::held_values::are_rising;
use crate::invalid_filter::InvalidFilter;
use crate::items::item_truth;
use term_model::{Filter, FilterForm, Filters, Object, Set};

/// Whether the filter is true of the object, or that it is invalid.
#[cycle(evaluating)]
fn filter_truth(
    set: &Set,
    object: &Object,
    rising: bool,
    filter: &Filter,
) -> Result<bool, InvalidFilter>
    requires { IsTrue rising → AreRising object.now.attrs }
    ensures truth { IfOk result (λ holds. holds ≡ is_true_of set.now.attributes object.now.attrs filter.now) }
    ensures valid { is_ok result ≡ is_valid set.now.attributes filter.now }
{
    match &filter.form {
        FilterForm::Item(item) => item_truth(set, object, rising, item),
        FilterForm::And(filters) => all_truth(set, object, rising, filters),
        FilterForm::Or(filters) => any_truth(set, object, rising, filters),
        FilterForm::Not(negated) => match filter_truth(set, object, rising, negated) {
            Ok(holds) => Ok(!holds),
            Err(fault) => Err(fault),
        },
    }
}

/// Whether all filters are true. Each is looked at, since a later one may be invalid.
#[cycle(evaluating)]
fn all_truth(
    set: &Set,
    object: &Object,
    rising: bool,
    filters: &Filters,
) -> Result<bool, InvalidFilter>
    requires { IsTrue rising → AreRising object.now.attrs }
    ensures truth { IfOk result (λ holds. holds ≡ are_true_of set.now.attributes object.now.attrs filters.now) }
    ensures valid { is_ok result ≡ are_valid set.now.attributes filters.now }
{
    let items = filters.items.as_slice();
    let mut all = true;
    for i in 0..items.len() {
        let holds = filter_truth(set, object, rising, &items[i])?;
        all = all && holds;
    }
    Ok(all)
}

/// Whether some filter is true. Each is looked at, since a later one may be invalid.
#[cycle(evaluating)]
fn any_truth(
    set: &Set,
    object: &Object,
    rising: bool,
    filters: &Filters,
) -> Result<bool, InvalidFilter>
    requires { IsTrue rising → AreRising object.now.attrs }
    ensures truth { IfOk result (λ holds. holds ≡ is_some_true_of set.now.attributes object.now.attrs filters.now) }
    ensures valid { is_ok result ≡ are_valid set.now.attributes filters.now }
{
    let items = filters.items.as_slice();
    let mut any = false;
    for i in 0..items.len() {
        let holds = filter_truth(set, object, rising, &items[i])?;
        any = any || holds;
    }
    Ok(any)
}

/// Whether the filter is true of the object: X.711, type CMISFilter. `InvalidFilter` comes exactly where an item
/// anywhere in the filter is invalid, also beside what settles its truth. Takes no memory. An item on an attribute that
/// the object hasn't, that is unknown, a group or named in local form is false.
pub fn holds(set: &Set, object: &Object, filter: &Filter) -> Result<bool, InvalidFilter>
    // the truth, and the test that computes it
    ensures truth { IfOk result (λ holds. IsTrue holds ↔ IsTrueOf set.now.attributes object.now.attrs filter.now) }
    ensures computed { IfOk result (λ holds. holds ≡ is_true_of set.now.attributes object.now.attrs filter.now) }

    // refused exactly where an item of the filter is invalid, wherever it stands
    ensures refused { IsErr result ↔ (is_valid set.now.attributes filter.now ≡ false) }
{
    let rising = are_rising(object.attrs.items.as_slice());
    filter_truth(set, object, rising, filter)
}
