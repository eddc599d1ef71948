//! Copies of the texts of values (X.680, section 17.7). Only memory can fail.

ghost use Rattle.std.specs.Prelude.{◌≡◌, IfOk};
ghost use Rattle.asn1_values_syntax.specs.NumberTrees.{arcs_end_tree};
ghost use Rattle.asn1_values_syntax.specs.ValueTrees.{content_tree, named_value_tree, part_tree, value_tree};

use asn1_values_syntax::arcs::{NamedArc, SureArcs};
use asn1_values_syntax::numbers::SignedNumber;
use asn1_values_syntax::value::{BracesText, NamedValue, ValuePart, ValueText};
use std::alloc::{AllocError, Global};
use token_grammar::Token;
use token_grammar::object_identifier::Arc;
use token_grammar::token_reading::copy_token;

fn copy_optional(alloc: Global, token: &Option<Token>) -> Result<Option<Token>, AllocError>
    ensures { IfOk result (λ copy. copy ≡ token.now) }
{
    match token {
        Some(token) => Ok(Some(copy_token(alloc, token)?)),
        None => Ok(None),
    }
}

fn copy_number(alloc: Global, number: &SignedNumber) -> Result<SignedNumber, AllocError>
    ensures { IfOk result (λ copy. copy ≡ number.now) }
{
    Ok(SignedNumber {
        minus: copy_optional(alloc, &number.minus)?,
        number: copy_token(alloc, &number.number)?,
    })
}

fn copy_arc(alloc: Global, arc: &Arc) -> Result<Arc, AllocError>
    ensures { IfOk result (λ copy. copy ≡ arc.now) }
{
    match arc {
        Arc::Number(number) => Ok(Arc::Number(copy_token(alloc, number)?)),
        Arc::Named { name, number } => {
            let name = copy_token(alloc, name)?;
            let number = copy_token(alloc, number)?;
            Ok(Arc::Named { name, number })
        }
    }
}

fn copy_arcs(alloc: Global, arcs: &[Arc]) -> Result<Vec<Arc>, AllocError>
    ensures { IfOk result (λ copies. copies.items ≡ arcs.now) }
{
    let mut copies = Vec::new(alloc);
    for arc in arcs.iter() {
        copies.push(copy_arc(alloc, arc)?)?;
    }
    Ok(copies)
}

fn copy_sure_arcs(alloc: Global, arcs: &SureArcs) -> Result<SureArcs, AllocError>
    ensures { IfOk result (λ copy. arcs_end_tree copy ≡ arcs_end_tree arcs.now) }
{
    match arcs {
        SureArcs::Number {
            first,
            second,
            others,
        } => {
            let first = copy_token(alloc, first)?;
            let second = copy_arc(alloc, second)?;
            let others = copy_arcs(alloc, others.as_slice())?;
            Ok(SureArcs::Number {
                first,
                second,
                others,
            })
        }
        SureArcs::Named { first, others } => {
            let name = copy_token(alloc, &first.name)?;
            let number = copy_token(alloc, &first.number)?;
            let others = copy_arcs(alloc, others.as_slice())?;
            let first = NamedArc { name, number };
            Ok(SureArcs::Named { first, others })
        }
    }
}

#[cycle(value_copies)]
fn copy_part(alloc: Global, part: &ValuePart) -> Result<ValuePart, AllocError>
    ensures { IfOk result (λ copy. part_tree copy ≡ part_tree part.now) }
{
    match part {
        ValuePart::Named { name, value } => {
            let name = copy_token(alloc, name)?;
            let value = copy_value(alloc, value)?;
            Ok(ValuePart::Named { name, value })
        }
        ValuePart::Unnamed(value) => Ok(ValuePart::Unnamed(copy_value(alloc, value)?)),
    }
}

#[cycle(value_copies)]
fn copy_content(alloc: Global, content: &BracesText) -> Result<BracesText, AllocError>
    ensures { IfOk result (λ copy. content_tree copy ≡ content_tree content.now) }
{
    match content {
        BracesText::Nothing => Ok(BracesText::Nothing),
        BracesText::Parts(parts) => {
            let mut copies = Vec::new(alloc);
            for part in parts.iter() {
                copies.push(copy_part(alloc, part)?)?;
            }
            Ok(BracesText::Parts(copies))
        }
        BracesText::Arcs(arcs) => {
            Ok(BracesText::Arcs(Box::new(alloc, copy_sure_arcs(alloc, arcs)?)?))
        }
        BracesText::NamedArcs { first, others } => {
            let first = copy_token(alloc, first)?;
            let others = Box::new(alloc, copy_sure_arcs(alloc, others)?)?;
            Ok(BracesText::NamedArcs { first, others })
        }
    }
}

#[cycle(value_copies)]
fn copy_named(alloc: Global, named: &NamedValue) -> Result<NamedValue, AllocError>
    ensures { IfOk result (λ copy. named_value_tree copy ≡ named_value_tree named.now) }
{
    match named {
        NamedValue::Name(name) => Ok(NamedValue::Name(copy_token(alloc, name)?)),
        NamedValue::Choice { name, value } => {
            let name = copy_token(alloc, name)?;
            let value = Box::new(alloc, copy_value(alloc, value)?)?;
            Ok(NamedValue::Choice { name, value })
        }
    }
}

/// A copy of the text of a value.
#[cycle(value_copies)]
pub fn copy_value(alloc: Global, value: &ValueText) -> Result<ValueText, AllocError>
    ensures { IfOk result (λ copy. value_tree copy ≡ value_tree value.now) }
{
    match value {
        ValueText::Literal(token) => Ok(ValueText::Literal(copy_token(alloc, token)?)),
        ValueText::Number(number) => Ok(ValueText::Number(copy_number(alloc, number)?)),
        ValueText::Named(named) => Ok(ValueText::Named(copy_named(alloc, named)?)),
        ValueText::Braces { brace, content } => {
            let brace = copy_token(alloc, brace)?;
            let content = copy_content(alloc, content)?;
            Ok(ValueText::Braces { brace, content })
        }
    }
}
