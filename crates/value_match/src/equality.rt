//! Equality and order of two values: X.722, section 8.7.

ghost use Rattle.std.specs.Prelude.{◌≡◌, ◌↔◌, IfOk, IsErr, IsTrue, false};
ghost use Rattle.term_values.specs.Matching.{Matches, is_at_most};
ghost use Rattle.term_values.specs.MatchingKinds.{can_match};
ghost use Rattle.term_values.specs.MatchingKinds.MatchingRule.{Equality, Ordering};

use crate::kinds::has_order;
use crate::not_matched::NotMatched;
use term_values::{Rules, Syntax, Value, ValueForm};

/// EQUALITY: whether the values are equal.
pub fn equal(
    _syntax: &Syntax,
    rules: &Rules,
    asserted: &Value,
    held: &Value,
) -> Result<bool, NotMatched>
    // the answer
    ensures matched { IfOk result (λ holds. IsTrue holds ↔ Matches Equality asserted.now held.now) }
    // refused where the attribute lacks the rule
    ensures refused { IsErr result ↔ (can_match Equality rules.now _syntax.now ≡ false) }
{
    if rules.equality {
        Ok(asserted.is_same(held))
    } else {
        Err(NotMatched)
    }
}

/// Whether the asserted value is at most the held one.
fn is_at_most(asserted: &Value, held: &Value) -> bool
    ensures { result ≡ is_at_most asserted.now held.now }
{
    match (&asserted.form, &held.form) {
        (ValueForm::Int(a), ValueForm::Int(b)) => *a <= *b,
        (ValueForm::Octets(a), ValueForm::Octets(b)) => a.cmp(b).is_le(),
        (ValueForm::Oid(a), ValueForm::Oid(b)) => a.cmp(b).is_le(),
        (ValueForm::Text(a), ValueForm::Text(b)) => a.cmp(b).is_le(),
        (ValueForm::Time(a), ValueForm::Time(b)) => a.cmp(b).is_le(),
        _ => false,
    }
}

/// ORDERING: whether the asserted value is at most the held one. Whole numbers and enumerations go by number, texts,
/// octets and times by octets, identifiers by arcs.
pub fn orders(
    syntax: &Syntax,
    rules: &Rules,
    asserted: &Value,
    held: &Value,
) -> Result<bool, NotMatched>
    // the answer
    ensures matched { IfOk result (λ holds. IsTrue holds ↔ Matches Ordering asserted.now held.now) }
    // refused where the attribute lacks the rule, or its values have no order
    ensures refused { IsErr result ↔ (can_match Ordering rules.now syntax.now ≡ false) }
{
    if rules.ordering && has_order(syntax) {
        Ok(is_at_most(asserted, held))
    } else {
        Err(NotMatched)
    }
}
