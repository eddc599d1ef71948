//! Members against the types that permit values: X.722, section 8.4; X.680, sections 26 and 28.

ghost use Rattle.std.specs.List.{insert};
ghost use Rattle.std.specs.Prelude.{◌≡◌, ◌&&◌, ◌≤◌, IfOk, length};
ghost use Rattle.term_values.specs.FitTest.{value_fits};
ghost use Rattle.term_values.specs.Rearranged.{may_precede};
ghost use Rattle.term_values.specs.Typed.{listed};
ghost use Rattle.term_values.specs.Written.{der};
ghost use Rattle.fitting_members.specs.MemberPlaces.{may_follow, may_lead};
ghost use Rattle.fitting_members.specs.MemberTests.{all_members_fit, all_numbers_fit, members_fit, number_fits};

use crate::placing::{both, encoding_of, precedes};
use std::alloc::{AllocError, Global};
use term_values::{Bytes, Syntax, SyntaxForm, Value};
use value_fits::fits;

/// Whether an encoding may stand behind that of a member.
fn follows(
    alloc: Global,
    member: &Syntax,
    encoding: &Bytes,
    value: &Value,
) -> Result<bool, AllocError>
    ensures { IfOk result (λ found. found ≡ may_precede (der member.now value.now) encoding.now) }
{
    let other = encoding_of(alloc, member, value)?;
    Ok(other <= *encoding)
}

/// Whether an encoding may stand behind that of the member in front of a place.
fn may_follow(
    alloc: Global,
    member: &Syntax,
    items: &[Value],
    at: usize,
    encoding: &Bytes,
) -> Result<bool, AllocError>
    ensures { IfOk result (λ found. found ≡ may_follow (der member.now) encoding.now items.now at) }
{
    if at == 0 {
        return Ok(true);
    }
    match items.get(at - 1) {
        None => Ok(true),
        Some(value) => follows(alloc, member, encoding, value),
    }
}

/// Whether an encoding may stand in front of that of the member at a place.
fn may_lead(
    alloc: Global,
    member: &Syntax,
    items: &[Value],
    at: usize,
    encoding: &Bytes,
) -> Result<bool, AllocError>
    ensures { IfOk result (λ found. found ≡ may_lead (der member.now) encoding.now items.now at) }
{
    match items.get(at) {
        None => Ok(true),
        Some(value) => precedes(alloc, member, encoding, value),
    }
}

/// Whether a member is of a SET OF's member type, and may stand at a place.
fn fits_at(
    alloc: Global,
    member: &Syntax,
    items: &[Value],
    at: usize,
    value: &Value,
) -> Result<bool, AllocError>
    ensures { IfOk result (λ found. found ≡ (value_fits member.now value.now
        && (may_follow (der member.now) (der member.now value.now) items.now at
        && may_lead (der member.now) (der member.now value.now) items.now at))) }
{
    if !fits(alloc, member, value)? {
        return Ok(false);
    }
    let encoding = encoding_of(alloc, member, value)?;
    if !may_follow(alloc, member, items, at, &encoding)? {
        return Ok(false);
    }
    may_lead(alloc, member, items, at, &encoding)
}

/// Whether members that are those of a type are so with one more at a place.
#[cycle(staying)]
fn stay_of(
    alloc: Global,
    syntax: &Syntax,
    items: &[Value],
    at: usize,
    value: &Value,
) -> Result<bool, AllocError>
    ensures { IfOk result (λ fit. at ≤ length items.now
        → members_fit syntax.now (listed (insert items.now at value.now))
        ≡ (fit && members_fit syntax.now (listed items.now))) }
{
    match &syntax.form {
        SyntaxForm::Tagged(_, _, of) => stay_of(alloc, of, items, at, value),
        SyntaxForm::ListOf(member, _) => fits(alloc, member, value),
        SyntaxForm::SetOf(member, _) => fits_at(alloc, member, items, at, value),
        _ => Ok(true),
    }
}

/// Whether members that are those of each of these types are so with one more at a place.
pub(crate) fn stay_of_all(
    alloc: Global,
    permitted: &[Syntax],
    items: &[Value],
    at: usize,
    value: &Value,
) -> Result<bool, AllocError>
    ensures { IfOk result (λ fit. at ≤ length items.now
        → all_members_fit permitted.now (listed (insert items.now at value.now))
        ≡ (fit && all_members_fit permitted.now (listed items.now))) }
{
    let mut fit = true;
    for syntax in permitted {
        let one = stay_of(alloc, syntax, items, at, value)?;
        fit = both(fit, one);
    }
    Ok(fit)
}

/// Whether a type admits so many members.
#[cycle(numbering)]
fn number_fits(syntax: &Syntax, count: usize) -> bool
    ensures { result ≡ number_fits syntax.now count }
{
    match &syntax.form {
        SyntaxForm::Tagged(_, _, of) => number_fits(of, count),
        SyntaxForm::ListOf(_, sizes) => sizes.allow_size(count),
        SyntaxForm::SetOf(_, sizes) => sizes.allow_size(count),
        _ => false,
    }
}

/// Whether each of these types admits so many members.
pub(crate) fn all_numbers_fit(permitted: &[Syntax], count: usize) -> bool
    ensures { result ≡ all_numbers_fit permitted.now count }
{
    for syntax in permitted {
        if !number_fits(syntax, count) {
            return false;
        }
    }
    true
}
