//! Copies of values and syntaxes.

ghost use Rattle.std.specs.Prelude.{◌≡◌, IfOk};

use crate::syntax::{Names, Part, Parts, Ranges, Syntax, SyntaxForm};
use crate::value::{Slot, Slots, Value, ValueForm, Values};
use std::alloc::{AllocError, Global};
use std::boxed::Box;

#[cycle(copying_values)]
fn copy_value(alloc: Global, value: &Value) -> Result<Value, AllocError>
    ensures { IfOk result (λ copy. copy ≡ value.now) }
{
    let form = match &value.form {
        ValueForm::Bool(holds) => ValueForm::Bool(*holds),
        ValueForm::Int(number) => ValueForm::Int(*number),
        ValueForm::Bits(octets, unused) => ValueForm::Bits(octets.copy(alloc)?, *unused),
        ValueForm::Octets(octets) => ValueForm::Octets(octets.copy(alloc)?),
        ValueForm::Null => ValueForm::Null,
        ValueForm::Oid(id) => ValueForm::Oid(id.copy(alloc)?),
        ValueForm::Text(text) => ValueForm::Text(text.copy(alloc)?),
        ValueForm::Time(text) => ValueForm::Time(text.copy(alloc)?),
        ValueForm::Parts(slots) => ValueForm::Parts(copy_slots(alloc, slots)?),
        ValueForm::Many(values) => ValueForm::Many(copy_values(alloc, values)?),
        ValueForm::Pick(index, picked) => {
            ValueForm::Pick(*index, Box::new(alloc, copy_value(alloc, picked)?)?)
        }
        ValueForm::Raw(octets) => ValueForm::Raw(octets.copy(alloc)?),
    };
    Ok(Value { form })
}

#[cycle(copying_values)]
fn copy_slots(alloc: Global, slots: &Slots) -> Result<Slots, AllocError>
    ensures { IfOk result (λ copy. copy ≡ slots.now) }
{
    let mut items = Vec::new(alloc);
    for slot in slots.items.as_slice() {
        match slot {
            Slot::Absent => items.push(Slot::Absent)?,
            Slot::Present(value) => items.push(Slot::Present(copy_value(alloc, value)?))?,
        }
    }
    Ok(Slots { items })
}

#[cycle(copying_values)]
fn copy_values(alloc: Global, values: &Values) -> Result<Values, AllocError>
    ensures { IfOk result (λ copy. copy ≡ values.now) }
{
    let mut items = Vec::new(alloc);
    for value in values.items.as_slice() {
        items.push(copy_value(alloc, value)?)?;
    }
    Ok(Values { items })
}

impl Value {
    /// A copy of this value.
    pub fn copy(&self, alloc: Global) -> Result<Value, AllocError>
        ensures { IfOk result (λ copy. copy ≡ self.now) }
    {
        copy_value(alloc, self)
    }
}

impl Names {
    /// A copy of these names.
    pub fn copy(&self, alloc: Global) -> Result<Names, AllocError>
        ensures { IfOk result (λ copy. copy ≡ self.now) }
    {
        let mut items = Vec::new(alloc);
        for (name, number) in self.items.as_slice() {
            items.push((name.copy(alloc)?, *number))?;
        }
        Ok(Names { items })
    }
}

impl Ranges {
    /// A copy of these ranges.
    pub fn copy(&self, alloc: Global) -> Result<Ranges, AllocError>
        ensures { IfOk result (λ copy. copy ≡ self.now) }
    {
        Ok(Ranges {
            items: Vec::from_slice(alloc, self.items.as_slice())?,
        })
    }
}

/// A copy of a default.
fn copy_default(alloc: Global, default: &Option<Value>) -> Result<Option<Value>, AllocError>
    ensures { IfOk result (λ copy. copy ≡ default.now) }
{
    match default {
        None => Ok(None),
        Some(value) => Ok(Some(copy_value(alloc, value)?)),
    }
}

#[cycle(copying_syntaxes)]
fn copy_syntax(alloc: Global, syntax: &Syntax) -> Result<Syntax, AllocError>
    ensures { IfOk result (λ copy. copy ≡ syntax.now) }
{
    let form = match &syntax.form {
        SyntaxForm::Bool => SyntaxForm::Bool,
        SyntaxForm::Int(names, ranges) => {
            SyntaxForm::Int(names.copy(alloc)?, ranges.copy(alloc)?)
        }
        SyntaxForm::Enumerated(names) => SyntaxForm::Enumerated(names.copy(alloc)?),
        SyntaxForm::Bits(names, sizes) => {
            SyntaxForm::Bits(names.copy(alloc)?, sizes.copy(alloc)?)
        }
        SyntaxForm::Octets(sizes) => SyntaxForm::Octets(sizes.copy(alloc)?),
        SyntaxForm::Null => SyntaxForm::Null,
        SyntaxForm::Oid => SyntaxForm::Oid,
        SyntaxForm::Text(charset, sizes) => SyntaxForm::Text(*charset, sizes.copy(alloc)?),
        SyntaxForm::Time => SyntaxForm::Time,
        SyntaxForm::Seq(parts) => SyntaxForm::Seq(copy_parts(alloc, parts)?),
        SyntaxForm::Unordered(parts) => SyntaxForm::Unordered(copy_parts(alloc, parts)?),
        SyntaxForm::ListOf(member, sizes) => SyntaxForm::ListOf(
            Box::new(alloc, copy_syntax(alloc, member)?)?,
            sizes.copy(alloc)?,
        ),
        SyntaxForm::SetOf(member, sizes) => SyntaxForm::SetOf(
            Box::new(alloc, copy_syntax(alloc, member)?)?,
            sizes.copy(alloc)?,
        ),
        SyntaxForm::Choice(parts) => SyntaxForm::Choice(copy_parts(alloc, parts)?),
        SyntaxForm::Tagged(tag, explicit, inner) => SyntaxForm::Tagged(
            *tag,
            *explicit,
            Box::new(alloc, copy_syntax(alloc, inner)?)?,
        ),
        SyntaxForm::Any => SyntaxForm::Any,
        SyntaxForm::Filter => SyntaxForm::Filter,
    };
    Ok(Syntax { form })
}

#[cycle(copying_syntaxes)]
fn copy_part(alloc: Global, part: &Part) -> Result<Part, AllocError>
    ensures { IfOk result (λ copy. copy ≡ part.now) }
{
    Ok(Part {
        name: part.name.copy(alloc)?,
        syntax: copy_syntax(alloc, &part.syntax)?,
        optional: part.optional,
        default: copy_default(alloc, &part.default)?,
    })
}

#[cycle(copying_syntaxes)]
fn copy_parts(alloc: Global, parts: &Parts) -> Result<Parts, AllocError>
    ensures { IfOk result (λ copy. copy ≡ parts.now) }
{
    let mut items = Vec::new(alloc);
    for part in parts.items.as_slice() {
        items.push(copy_part(alloc, part)?)?;
    }
    Ok(Parts { items })
}

impl Syntax {
    /// A copy of this syntax.
    pub fn copy(&self, alloc: Global) -> Result<Syntax, AllocError>
        ensures { IfOk result (λ copy. copy ≡ self.now) }
    {
        copy_syntax(alloc, self)
    }
}
