//! Members added to a value of SET OF and removed from it: X.711, type ModifyOperator.

ghost use Rattle.std.specs.Prelude.{◌≡◌, [], IfOk, OnOk};
ghost use Rattle.set_values.specs.EncodingSets.{Grows, holds, pushed_unless};
ghost use Rattle.term_values.specs.SetMembers.{added, removed, on_members, with_members, without_members};
ghost use Rattle.term_values.specs.Syntaxes.TypeSyntax.{SetOf};
ghost use Rattle.term_values.specs.Typed.{listed};
ghost use Rattle.term_values.specs.Written.{der};

use crate::encodings::{encodings_of, has_encoding, insert_encoding};
use ber_values::member_order::rising_members;
use std::alloc::{AllocError, Global};
use std::collections::BTreeSet;
use term_values::{Bytes, Syntax, SyntaxForm, Value, ValueForm, Values};

/// Copies of the members.
fn copies(alloc: Global, values: &Values) -> Result<Vec<Value>, AllocError>
    ensures { IfOk result (λ copies. listed copies.items ≡ values.now) }
{
    let mut items = Vec::new(alloc);
    for value in values.items.as_slice() {
        items.push(value.copy(alloc)?)?;
    }
    Ok(items)
}

/// Appends a copy of a member whose encoding is not among those that came before, and puts it among them.
fn push_new(
    alloc: Global,
    member: &Syntax,
    value: &Value,
    there: &mut BTreeSet<Bytes>,
    items: &mut Vec<Value>,
) -> Result<(), AllocError>
    ensures pushed { OnOk result (items.new.items
        ≡ pushed_unless (holds there.old (der member.now value.now)) items.old.items value.now) }
    ensures grows { OnOk result (Grows there.old there.new (der member.now value.now)) }
{
    if insert_encoding(alloc, member, value, there)? {
        items.push(value.copy(alloc)?)?;
    }
    Ok(())
}

/// The members that are held, and those given that are not among them, each once.
fn added(
    alloc: Global,
    member: &Syntax,
    held: &Values,
    given: &Values,
) -> Result<Values, AllocError>
    ensures { IfOk result (λ values. values ≡ added (der member.now) held.now given.now) }
{
    let mut there = encodings_of(alloc, member, held)?;
    let mut items = copies(alloc, held)?;
    for value in given.items.as_slice() {
        push_new(alloc, member, value, &mut there, &mut items)?;
    }
    rising_members(alloc, member, Values { items })
}

/// Appends a copy of a member whose encoding is not among these.
fn push_other(
    alloc: Global,
    member: &Syntax,
    value: &Value,
    taken: &BTreeSet<Bytes>,
    items: &mut Vec<Value>,
) -> Result<(), AllocError>
    ensures { OnOk result (items.new.items
        ≡ pushed_unless (holds taken.now (der member.now value.now)) items.old.items value.now) }
{
    if !has_encoding(alloc, member, value, taken)? {
        items.push(value.copy(alloc)?)?;
    }
    Ok(())
}

/// The members that are held, but those that are equal to one that is given.
fn removed(
    alloc: Global,
    member: &Syntax,
    held: &Values,
    given: &Values,
) -> Result<Values, AllocError>
    ensures { IfOk result (λ values. values ≡ removed (der member.now) held.now given.now) }
{
    let taken = encodings_of(alloc, member, given)?;
    let mut items = Vec::new(alloc);
    for value in held.items.as_slice() {
        push_other(alloc, member, value, &taken, &mut items)?;
    }
    Ok(Values { items })
}

/// The value of a SET OF of this member with those that are given.
fn with_given(
    alloc: Global,
    member: &Syntax,
    held: &Value,
    given: &Value,
) -> Result<Value, AllocError>
    ensures { IfOk result (λ value. value ≡ on_members added (SetOf member.now []) held.now given.now) }
{
    match (&held.form, &given.form) {
        (ValueForm::Many(there), ValueForm::Many(more)) => Ok(Value {
            form: ValueForm::Many(added(alloc, member, there, more)?),
        }),
        _ => held.copy(alloc),
    }
}

/// The value of a SET OF of this member without those that are given.
fn without_given(
    alloc: Global,
    member: &Syntax,
    held: &Value,
    given: &Value,
) -> Result<Value, AllocError>
    ensures { IfOk result (λ value. value ≡ on_members removed (SetOf member.now []) held.now given.now) }
{
    match (&held.form, &given.form) {
        (ValueForm::Many(there), ValueForm::Many(gone)) => Ok(Value {
            form: ValueForm::Many(removed(alloc, member, there, gone)?),
        }),
        _ => held.copy(alloc),
    }
}

/// The held value with the members that are given: those that are held, and of the given ones those that are not among
/// them, each once, by the rising order of their encodings. X.711, type ModifyOperator, addValues.
///
/// Where the syntax is no SET OF beneath its tags, or one of the values no list of members, it is the held value. The
/// only error is want of memory. Each member is written, in the time of a sort.
#[cycle(adding)]
pub fn with_members(
    alloc: Global,
    syntax: &Syntax,
    held: &Value,
    given: &Value,
) -> Result<Value, AllocError>
    ensures { IfOk result (λ value. value ≡ with_members syntax.now held.now given.now) }
{
    match &syntax.form {
        SyntaxForm::Tagged(_, _, of) => with_members(alloc, of, held, given),
        SyntaxForm::SetOf(member, _) => with_given(alloc, member, held, given),
        _ => held.copy(alloc),
    }
}

/// The held value without the members that are given: those held members that are equal to none of them, in their
/// order. X.711, type ModifyOperator, removeValues.
///
/// Where the syntax is no SET OF beneath its tags, or one of the values no list of members, it is the held value. The
/// only error is want of memory. Each member is written, in the time of a sort.
#[cycle(removing)]
pub fn without_members(
    alloc: Global,
    syntax: &Syntax,
    held: &Value,
    given: &Value,
) -> Result<Value, AllocError>
    ensures { IfOk result (λ value. value ≡ without_members syntax.now held.now given.now) }
{
    match &syntax.form {
        SyntaxForm::Tagged(_, _, of) => without_members(alloc, of, held, given),
        SyntaxForm::SetOf(member, _) => without_given(alloc, member, held, given),
        _ => held.copy(alloc),
    }
}
