//! The values that modifications give to attributes: X.711, section 7.5, type ModifyOperator.

ghost use Rattle.std.specs.Prelude.{◌≡◌, ◌&&◌, IfOk, IfSome, OnOk, Some, length, nat_le, true};
ghost use Rattle.std.specs.Option.{option_copied};
ghost use Rattle.term_values.specs.FitTest.{value_fits};
ghost use Rattle.term_values.specs.Lengths.{counted};
ghost use Rattle.term_values.specs.Written.{der};
ghost use Rattle.fitting_members.specs.MemberLengths.{members_length};
ghost use Rattle.fitting_members.specs.TakingBack.{TakesBack};
ghost use Rattle.term_model.specs.ClassAttributes.{is_permitted};
ghost use Rattle.term_model.specs.Modifications.{given_value, modified_value};
ghost use Rattle.object_modifications.specs.declared.knowing.Knowledge.TheVariants as known;
ghost use Rattle.object_modifications.specs.Knowing.{Knows};
ghost use Rattle.object_modifications.specs.Trying.{changes_members};

use attribute_rules::permitted::is_permitted;
use fitting_members::{MemberChange, add_members, remove_members};
use set_values::{with_members, without_members};
use std::alloc::{AllocError, Global};
use term_model::request::{ADD_VALUES, REMOVE_VALUES, REPLACE};
use term_model::{Change, Property};
use term_values::{Syntax, Value, der_len};
use value_fits::fits;

/// The most octets of a value. This is the project's own limit.
pub(crate) const MOST_VALUE: u64 = 8_192;

/// The value that came with a modification, where it is one of the attribute's syntax.
fn given_value(change: &Change) -> Option<&Value>
    ensures { option_copied result ≡ given_value change.now }
{
    match &change.given {
        Some(given) => match &given.value {
            Some(value) => Some(value),
            None => None,
        },
        None => None,
    }
}

/// A copy of a value, where there is one.
fn copied(alloc: Global, value: Option<&Value>) -> Result<Option<Value>, AllocError>
    ensures { IfOk result (λ copy. copy ≡ option_copied value.entry) }
{
    match value {
        Some(value) => Ok(Some(value.copy(alloc)?)),
        None => Ok(None),
    }
}

/// The value that an attribute is to have by a modification, where one is told.
pub(crate) fn modified_value(
    alloc: Global,
    syntax: &Syntax,
    property: &Property,
    held: &Value,
    change: &Change,
) -> Result<Option<Value>, AllocError>
    ensures { IfOk result (λ value. value ≡ modified_value syntax.now property.now held.now change.now) }
{
    if change.operator == REPLACE {
        return copied(alloc, given_value(change));
    }
    if change.operator == ADD_VALUES {
        return match given_value(change) {
            Some(given) => Ok(Some(with_members(alloc, syntax, held, given)?)),
            None => Ok(None),
        };
    }
    if change.operator == REMOVE_VALUES {
        return match given_value(change) {
            Some(given) => Ok(Some(without_members(alloc, syntax, held, given)?)),
            None => Ok(None),
        };
    }
    match &property.default {
        Some(value) => Ok(Some(value.copy(alloc)?)),
        None => Ok(None),
    }
}

/// The value fits and is permitted.
pub(crate) fn may_be(
    alloc: Global,
    syntax: &Syntax,
    property: &Property,
    value: &Value,
) -> Result<bool, AllocError>
    ensures { IfOk result (λ found. found
        ≡ (value_fits syntax.now value.now && is_permitted property.now.permitted value.now)) }
{
    if !fits(alloc, syntax, value)? {
        return Ok(false);
    }
    is_permitted(alloc, &property.permitted, value)
}

/// The modification adds members to a value, or removes them.
fn changes_members(change: &Change) -> bool
    ensures { result ≡ changes_members change.now.operator }
{
    change.operator == ADD_VALUES || change.operator == REMOVE_VALUES
}

/// The members that a modification adds or removes, where it is one that does.
pub(crate) fn given_members(change: &Change) -> Option<&Value>
    ensures given { IfSome result (λ given. given_value change.now ≡ Some given.now) }
    ensures operator { IfSome result (λ given. changes_members change.now.operator ≡ true) }
{
    if changes_members(change) {
        given_value(change)
    } else {
        None
    }
}

/// Adds the given members to a value, or removes them, as the modification says.
pub(crate) fn change_members(
    alloc: Global,
    syntax: &Syntax,
    property: &Property,
    change: &Change,
    octets: u64,
    given: &Value,
    value: &mut Value,
) -> Result<MemberChange, AllocError>
    requires given { given_value change.now ≡ Some given.now }
    requires operator { changes_members change.now.operator ≡ true }
    requires known { Knows syntax.now property.now.permitted value.old (known.Fits octets) }
    ensures value { OnOk result (modified_value syntax.now property.now value.old change.now ≡ Some value.new) }
    ensures allowed { IfOk result (λ came. came.allowed
        ≡ (value_fits syntax.now value.new && is_permitted property.now.permitted value.new)) }
    ensures octets { IfOk result (λ came. came.octets ≡ counted (members_length syntax.now value.new)) }
    ensures undo { IfOk result (λ came. TakesBack came.undo value.new value.old) }
{
    let permitted = property.permitted.items.as_slice();
    if change.operator == ADD_VALUES {
        add_members(alloc, syntax, permitted, value, octets, given)
    } else {
        remove_members(alloc, syntax, permitted, value, octets, given)
    }
}
