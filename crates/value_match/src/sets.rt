//! Whether sets are within one another, or have a common member: X.722, section 8.7.

ghost use Rattle.std.specs.Prelude.{◌≡◌, ◌↔◌, ◌≤◌, IfOk, IfSome, IsErr, IsTrue, is_some, false, drop, length, take};
ghost use Rattle.term_values.specs.Typed.{listed};
ghost use Rattle.term_values.specs.Matching.{AreHeld, HaveCommon, Matches};
ghost use Rattle.term_values.specs.MatchingKinds.{beneath_tags, can_match, is_set_of};
ghost use Rattle.term_values.specs.MatchingKinds.MatchingRule.{Comparison, Intersection};
ghost use Rattle.value_match.specs.FirstSizes.{front_size};
ghost use Rattle.value_match.specs.MemberKeys.{member_key};
ghost use Rattle.value_match.specs.MemberPlaces.{IsPlaceOf};
ghost use Rattle.value_match.specs.RisingMembers.{AllBefore, AreRising, IsMeasured, IsReached};

use crate::first_sizes::{first_size, size_from};
use crate::kinds::is_set_of;
use crate::member_order::{order_of_measured, order_of_members};
use crate::not_matched::NotMatched;
use crate::told::{MemberOrder, may_precede};
use term_values::{Rules, Syntax, SyntaxForm, Value, ValueForm};

/// The first place of the value among the members.
fn first_place(value: &Value, members: &[Value]) -> Option<usize>
    ensures { IsPlaceOf value.now members.now result }
{
    for at in 0..members.len() {
        if members[at].is_same(value) {
            return Some(at);
        }
    }
    None
}

/// A place of the value among the members, which is looked for from `from` on and then in front of it.
fn place_of(value: &Value, members: &[Value], from: usize) -> Option<usize>
    requires { from ≤ length members.now }
    ensures { IsPlaceOf value.now members.now result }
{
    match first_place(value, &members[from..]) {
        Some(at) => Some(from + at),
        None => first_place(value, &members[..from]),
    }
}

/// Whether each asserted member is held. Where both stand in one order, each held member is looked at once, beside one
/// look at all of them where the answer is no.
fn are_held(asserted: &[Value], held: &[Value]) -> bool
    ensures { IsTrue result ↔ AreHeld (listed asserted.now) (listed held.now) }
{
    let mut from = 0;
    for member in asserted {
        match place_of(member, held, from) {
            Some(at) => from = at,
            None => return false,
        }
    }
    true
}

/// Whether some asserted member is held, each asserted one looked for from the front of the others.
fn share_any(asserted: &[Value], held: &[Value]) -> bool
    ensures { IsTrue result ↔ HaveCommon (listed asserted.now) (listed held.now) }
{
    for member in asserted {
        match first_place(member, held) {
            Some(_) => return true,
            None => {}
        }
    }
    false
}

/// What is known of a value among members that stand in rising order.
enum Reached {
    /// It is one of them.
    Held,
    /// It is none of them, and those in front of this place stand before it. The member there has this size.
    Passed(usize, u64),
    /// Nothing.
    Untold,
}

/// Looks for a value among members in rising order, those in front of `from` being before it. The member at `from` has
/// the size `from_size`: it may be large, and be reached for many values, so it is measured once.
fn reach(syntax: &Syntax, value: &Value, held: &[Value], from: usize, from_size: u64) -> Reached
    requires within { from ≤ length held.now }
    requires measured { from_size ≡ front_size syntax.now (drop from held.now) }
    requires rising { AreRising (member_key syntax.now) held.now }
    requires passed { AllBefore (member_key syntax.now) (take from held.now) (member_key syntax.now value.now) }
    ensures known { IsReached (member_key syntax.now) value.now held.now result }
    ensures measured { IsMeasured syntax.now held.now result }
{
    let size = first_size(syntax, value);
    let mut held_size = from_size;
    for at in from..held.len() {
        match order_of_measured(syntax, &held[at], held_size, value, size) {
            MemberOrder::Before => held_size = size_from(syntax, held, at + 1),
            MemberOrder::Alike => {
                return if held[at].is_same(value) {
                    Reached::Held
                } else {
                    Reached::Untold
                };
            }
            MemberOrder::After => return Reached::Passed(at, held_size),
            MemberOrder::Untold => return Reached::Untold,
        }
    }
    Reached::Passed(held.len(), held_size)
}

/// Whether some asserted member is held, both in rising order: each member of both is looked at once. None where the
/// order of some members isn't told.
fn share_rising(syntax: &Syntax, asserted: &[Value], held: &[Value]) -> Option<bool>
    requires asserted { AreRising (member_key syntax.now) asserted.now }
    requires held { AreRising (member_key syntax.now) held.now }
    ensures { IfSome result (λ shared. IsTrue shared ↔ HaveCommon (listed asserted.now) (listed held.now)) }
{
    let mut from = 0;
    let mut size = size_from(syntax, held, 0);
    for member in asserted {
        match reach(syntax, member, held, from, size) {
            Reached::Held => return Some(true),
            Reached::Passed(at, at_size) => {
                from = at;
                size = at_size;
            }
            Reached::Untold => return None,
        }
    }
    Some(false)
}

/// Whether it is told that the members stand in rising order.
fn are_rising(syntax: &Syntax, members: &[Value]) -> bool
    ensures { IsTrue result → AreRising (member_key syntax.now) members.now }
{
    for next in 1..members.len() {
        let last = next - 1;
        if !may_precede(order_of_members(syntax, &members[last], &members[next])) {
            return false;
        }
    }
    true
}

/// Whether some asserted member is held. Members of values that fit stand in rising order, and then each is looked at
/// a few times.
fn share(syntax: &Syntax, asserted: &[Value], held: &[Value]) -> bool
    ensures { IsTrue result ↔ HaveCommon (listed asserted.now) (listed held.now) }
{
    if are_rising(syntax, asserted) && are_rising(syntax, held) {
        match share_rising(syntax, asserted, held) {
            Some(shared) => shared,
            None => share_any(asserted, held),
        }
    } else {
        share_any(asserted, held)
    }
}

/// Whether each asserted member is held, where both values have members.
fn is_subset(asserted: &Value, held: &Value) -> bool
    ensures { IsTrue result ↔ Matches Comparison asserted.now held.now }
{
    match (&asserted.form, &held.form) {
        (ValueForm::Many(members), ValueForm::Many(others)) => {
            are_held(members.items.as_slice(), others.items.as_slice())
        }
        _ => false,
    }
}

/// SET-COMPARISON: whether each member of the asserted set is one of the held set.
pub fn subset(
    syntax: &Syntax,
    rules: &Rules,
    asserted: &Value,
    held: &Value,
) -> Result<bool, NotMatched>
    // the answer
    ensures matched { IfOk result (λ holds. IsTrue holds ↔ Matches Comparison asserted.now held.now) }
    // refused where the attribute lacks the rule, or isn't a SET OF
    ensures refused { IsErr result ↔ (can_match Comparison rules.now syntax.now ≡ false) }
{
    if rules.comparison && is_set_of(syntax) {
        Ok(is_subset(asserted, held))
    } else {
        Err(NotMatched)
    }
}

/// The syntax of the members, of a SET OF.
#[cycle(member_syntaxes)]
fn member_syntax(syntax: &Syntax) -> Option<&Syntax>
    ensures { is_some result ≡ is_set_of (beneath_tags syntax.now) }
{
    match &syntax.form {
        SyntaxForm::Tagged(_, _, of) => member_syntax(of),
        SyntaxForm::SetOf(member, _) => Some(member),
        _ => None,
    }
}

/// Whether some asserted member is held, where both values have members.
fn is_meeting(syntax: &Syntax, asserted: &Value, held: &Value) -> bool
    ensures { IsTrue result ↔ Matches Intersection asserted.now held.now }
{
    match (&asserted.form, &held.form) {
        (ValueForm::Many(members), ValueForm::Many(others)) => share(
            syntax,
            members.items.as_slice(),
            others.items.as_slice(),
        ),
        _ => false,
    }
}

/// SET-INTERSECTION: whether some member of the asserted set is one of the held set.
pub fn meets(
    syntax: &Syntax,
    rules: &Rules,
    asserted: &Value,
    held: &Value,
) -> Result<bool, NotMatched>
    // the answer
    ensures matched { IfOk result (λ holds. IsTrue holds ↔ Matches Intersection asserted.now held.now) }
    // refused where the attribute lacks the rule, or isn't a SET OF
    ensures refused { IsErr result ↔ (can_match Intersection rules.now syntax.now ≡ false) }
{
    match member_syntax(syntax) {
        Some(member) if rules.intersection => Ok(is_meeting(member, asserted, held)),
        _ => Err(NotMatched),
    }
}
