//! Whether a value has a syntax: X.680, sections 17 to 51. Tags have no part in it.

ghost use Rattle.std.specs.Prelude.{◌≡◌, IfOk, true, false};
ghost use Rattle.term_values.specs.Fits.{Fits};
ghost use Rattle.term_values.specs.Written.{der};
ghost use Rattle.term_values.specs.FitTest.{value_fits, parts_fit, pick_fits, all_fit, list_fits, set_fits, slot_fits};
ghost use Rattle.term_values.specs.FitTest.{parts_value_fits, pick_value_fits, may_be_empty};

use crate::kept::{any_fits, filter_fits};
use crate::leaves::{
    bits_fit, identifier_fits, named_fits, null_fits, octets_fit, text_fits, time_fits, truth_fits,
    whole_fits,
};
use crate::rising::are_rising;
use std::alloc::{AllocError, Global};
use term_values::{Part, Parts, Ranges, Slot, Slots, Syntax, SyntaxForm, Value, ValueForm, Values};

#[cycle(fitting)]
fn value_fits(alloc: Global, syntax: &Syntax, value: &Value) -> Result<bool, AllocError>
    ensures { IfOk result (λ found. found ≡ value_fits syntax.now value.now) }
{
    match &syntax.form {
        SyntaxForm::Bool => Ok(truth_fits(value)),
        SyntaxForm::Int(_, ranges) => Ok(whole_fits(ranges, value)),
        SyntaxForm::Enumerated(names) => Ok(named_fits(names, value)),
        SyntaxForm::Bits(_, sizes) => Ok(bits_fit(sizes, value)),
        SyntaxForm::Octets(sizes) => Ok(octets_fit(sizes, value)),
        SyntaxForm::Null => Ok(null_fits(value)),
        SyntaxForm::Oid => Ok(identifier_fits(value)),
        SyntaxForm::Text(charset, sizes) => Ok(text_fits(*charset, sizes, value)),
        SyntaxForm::Time => Ok(time_fits(value)),
        SyntaxForm::Seq(parts) => parts_value_fits(alloc, parts, value),
        SyntaxForm::Unordered(parts) => parts_value_fits(alloc, parts, value),
        SyntaxForm::ListOf(member, sizes) => list_fits(alloc, member, sizes, value),
        SyntaxForm::SetOf(member, sizes) => set_fits(alloc, member, sizes, value),
        SyntaxForm::Choice(parts) => pick_value_fits(alloc, parts, value),
        SyntaxForm::Tagged(_, _, inner) => value_fits(alloc, inner, value),
        SyntaxForm::Any => any_fits(alloc, value),
        SyntaxForm::Filter => filter_fits(alloc, value),
    }
}

/// SEQUENCE and SET.
#[cycle(fitting)]
fn parts_value_fits(alloc: Global, parts: &Parts, value: &Value) -> Result<bool, AllocError>
    ensures { IfOk result (λ found. found ≡ parts_value_fits (parts_fit parts.now) value.now) }
{
    match &value.form {
        ValueForm::Parts(slots) => parts_fit(alloc, parts, slots),
        _ => Ok(false),
    }
}

/// A component that is left out is OPTIONAL, and has no DEFAULT.
fn may_be_empty(part: &Part) -> bool
    ensures { result ≡ may_be_empty part.now.optional part.now.default }
{
    part.optional && part.default.is_none()
}

#[cycle(fitting)]
fn slot_fits(alloc: Global, part: &Part, slot: &Slot) -> Result<bool, AllocError>
    ensures { IfOk result (λ found. found ≡ slot_fits part.now slot.now) }
{
    match slot {
        Slot::Absent => Ok(may_be_empty(part)),
        Slot::Present(value) => value_fits(alloc, &part.syntax, value),
    }
}

/// There is a component for each of the type's, and each fits.
#[cycle(fitting)]
fn parts_fit(alloc: Global, parts: &Parts, slots: &Slots) -> Result<bool, AllocError>
    ensures { IfOk result (λ found. found ≡ parts_fit parts.now slots.now) }
{
    let items = parts.items.as_slice();
    let held = slots.items.as_slice();
    if items.len() != held.len() {
        return Ok(false);
    }
    for i in 0..items.len() {
        if !slot_fits(alloc, &items[i], &held[i])? {
            return Ok(false);
        }
    }
    Ok(true)
}

#[cycle(fitting)]
fn all_fit(alloc: Global, member: &Syntax, values: &Values) -> Result<bool, AllocError>
    ensures { IfOk result (λ found. found ≡ all_fit (value_fits member.now) values.now) }
{
    for value in values.items.as_slice() {
        if !value_fits(alloc, member, value)? {
            return Ok(false);
        }
    }
    Ok(true)
}

/// SEQUENCE OF.
#[cycle(fitting)]
fn list_fits(
    alloc: Global,
    member: &Syntax,
    sizes: &Ranges,
    value: &Value,
) -> Result<bool, AllocError>
    ensures { IfOk result (λ found. found ≡ list_fits sizes.now (value_fits member.now) value.now) }
{
    match &value.form {
        ValueForm::Many(values) => {
            if sizes.allow_size(values.items.as_slice().len()) {
                all_fit(alloc, member, values)
            } else {
                Ok(false)
            }
        }
        _ => Ok(false),
    }
}

/// SET OF.
#[cycle(fitting)]
fn set_fits(
    alloc: Global,
    member: &Syntax,
    sizes: &Ranges,
    value: &Value,
) -> Result<bool, AllocError>
    ensures { IfOk result (λ found. found
        ≡ set_fits (der member.now) (list_fits sizes.now (value_fits member.now) value.now) value.now) }
{
    if !list_fits(alloc, member, sizes, value)? {
        return Ok(false);
    }
    match &value.form {
        ValueForm::Many(values) => are_rising(alloc, member, values),
        _ => Ok(false),
    }
}

/// CHOICE.
#[cycle(fitting)]
fn pick_value_fits(alloc: Global, parts: &Parts, value: &Value) -> Result<bool, AllocError>
    ensures { IfOk result (λ found. found ≡ pick_value_fits (pick_fits parts.now) value.now) }
{
    match &value.form {
        ValueForm::Pick(index, picked) => pick_fits(alloc, parts, *index, picked),
        _ => Ok(false),
    }
}

/// There is an alternative of this number, and the value has its syntax.
#[cycle(fitting)]
fn pick_fits(alloc: Global, parts: &Parts, index: u32, value: &Value) -> Result<bool, AllocError>
    ensures { IfOk result (λ found. found ≡ pick_fits parts.now index value.now) }
{
    let items = parts.items.as_slice();
    let place = index as usize;
    if place < items.len() {
        let part = &items[place];
        return value_fits(alloc, &part.syntax, value);
    }
    Ok(false)
}

/// Whether the value has the syntax: its form, the numbers, sizes and octets that the syntax allows, members of a SET
/// OF by the rising order of their encodings, an ANY and a CMISFilter in the form in which they are kept. X.680,
/// sections 17 to 51.
///
/// The only error is want of memory. The time is linear in the value, but that the members of a SET OF are written
/// once for each SET OF round them. The recursion goes down the syntax, and in an ANY down what its octets nest.
pub fn fits(alloc: Global, syntax: &Syntax, value: &Value) -> Result<bool, AllocError>
    ensures fits { IfOk result (λ found. found ≡ true → Fits syntax.now value.now) }
    ensures misfit { IfOk result (λ found. found ≡ false → Fits syntax.now value.now → ⊥) }
    ensures told { IfOk result (λ found. found ≡ value_fits syntax.now value.now) }
{
    value_fits(alloc, syntax, value)
}
