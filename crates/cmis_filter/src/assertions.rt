//! What is asserted of one attribute: X.711, section 7.5, type FilterItem.

ghost use Rattle.std.specs.Prelude.{◌≡◌, IfOk, IsTrue, is_ok, is_some};
ghost use Rattle.std.specs.Option.{option_copied};
ghost use Rattle.term_values.specs.MatchingKinds.{can_match};
ghost use Rattle.term_model.specs.FilterTests.{do_meet};
ghost use Rattle.term_model.specs.FilterTruth.{held_value, is_valid_assertion};
ghost use Rattle.cmis_filter.specs.Comparisons.{do_compare, rule_of};
ghost use Rattle.cmis_filter.specs.Rising.{AreRising};

use crate::comparing::{Comparison, can_compare, compare};
use crate::held_values::value_in;
use crate::invalid_filter::InvalidFilter;
use term_model::{AttrRec, IdRef, Object, Set};
use term_values::Value;

/// What is asserted of an attribute that is known, of which the object may have a value.
fn assertion_of_known(
    known: &AttrRec,
    comparison: Comparison,
    asserted: &Value,
    held: Option<&Value>,
) -> Result<bool, InvalidFilter>
    ensures truth { IfOk result
        (λ holds. holds ≡ do_meet (do_compare comparison) (Some asserted.now) (option_copied held.entry)) }
    ensures valid { is_ok result ≡ can_match (rule_of comparison) known.now.rules known.now.syntax }
{
    match held {
        Some(held) => match compare(comparison, &known.syntax, &known.rules, asserted, held) {
            Ok(holds) => Ok(holds),
            Err(_) => Err(InvalidFilter),
        },
        None => {
            if can_compare(comparison, &known.syntax, &known.rules) {
                Ok(false)
            } else {
                Err(InvalidFilter)
            }
        }
    }
}

/// What is asserted of an attribute: false where it isn't known, is named in local form, or the object hasn't it.
pub fn assertion(
    set: &Set,
    object: &Object,
    rising: bool,
    comparison: Comparison,
    id: &IdRef,
    asserted: &Option<Value>,
) -> Result<bool, InvalidFilter>
    requires { IsTrue rising → AreRising object.now.attrs }
    ensures truth { IfOk result (λ holds. holds
        ≡ do_meet (do_compare comparison) asserted.now (held_value set.now.attributes object.now.attrs id.now)) }
    ensures valid { is_ok result
        ≡ is_valid_assertion set.now.attributes (rule_of comparison) id.now asserted.now }
{
    match id {
        IdRef::Local(_) => Ok(false),
        IdRef::Global(id) => match set.attributes.find(id) {
            None => Ok(false),
            Some(known) => match asserted {
                None => Err(InvalidFilter),
                Some(asserted) => {
                    let held = value_in(object.attrs.items.as_slice(), rising, id);
                    assertion_of_known(known, comparison, asserted, held)
                }
            },
        },
    }
}
