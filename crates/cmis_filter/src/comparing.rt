//! How an item compares an asserted value with the held one: X.711, section 7.5, type FilterItem.

ghost use Rattle.std.specs.Prelude.{◌≡◌, IfOk, is_ok};
ghost use Rattle.term_values.specs.MatchingKinds.{can_match};
ghost use Rattle.cmis_filter.specs.Comparisons.{do_compare, rule_of};

use term_values::{Rules, Syntax, Value};
use value_match::kinds::{has_order, has_pieces, is_set_of};
use value_match::{NotMatched, contains_text, equal, meets, orders, subset};

/// How an item compares the two values.
#[derive(Clone, Copy, Debug, PartialEq, Eq, Drop)]
pub enum Comparison {
    /// equality
    Equal,
    /// substrings
    HasPieces,
    /// greaterOrEqual: the asserted value is greater than the held one, or equal to it.
    AtLeast,
    /// lessOrEqual: the asserted value is less than the held one, or equal to it.
    AtMost,
    /// subsetOf: the asserted set is within the held one.
    Within,
    /// supersetOf: the held set is within the asserted one.
    Around,
    /// nonNullSetIntersection: both sets have a common member.
    Meeting,
}

/// Whether an attribute with these rules and this syntax can be compared so.
pub fn can_compare(comparison: Comparison, syntax: &Syntax, rules: &Rules) -> bool
    ensures { result ≡ can_match (rule_of comparison) rules.now syntax.now }
{
    match comparison {
        Comparison::Equal => rules.equality,
        Comparison::HasPieces => rules.substrings && has_pieces(syntax),
        Comparison::AtLeast => rules.ordering && has_order(syntax),
        Comparison::AtMost => rules.ordering && has_order(syntax),
        Comparison::Within => rules.comparison && is_set_of(syntax),
        Comparison::Around => rules.comparison && is_set_of(syntax),
        Comparison::Meeting => rules.intersection && is_set_of(syntax),
    }
}

/// Whether the values compare so. Refused where the attribute lacks the rule, or its syntax isn't of the rule's kind.
pub fn compare(
    comparison: Comparison,
    syntax: &Syntax,
    rules: &Rules,
    asserted: &Value,
    held: &Value,
) -> Result<bool, NotMatched>
    ensures truth { IfOk result (λ holds. holds ≡ do_compare comparison asserted.now held.now) }
    ensures valid { is_ok result ≡ can_match (rule_of comparison) rules.now syntax.now }
{
    match comparison {
        Comparison::Equal => equal(syntax, rules, asserted, held),
        Comparison::HasPieces => contains_text(syntax, rules, asserted, held),
        Comparison::AtLeast => orders(syntax, rules, held, asserted),
        Comparison::AtMost => orders(syntax, rules, asserted, held),
        Comparison::Within => subset(syntax, rules, asserted, held),
        Comparison::Around => subset(syntax, rules, held, asserted),
        Comparison::Meeting => meets(syntax, rules, asserted, held),
    }
}
