//! Object identifiers as they are written: in templates and modules, and as values (X.660, annex A; X.680, section 32).

ghost use Rattle.std.specs.Prelude.{◌≡◌, ◌++◌, ◌∷◌, [], IfOk, OnOk, Some, map};
ghost use Rattle.asn1_values_syntax.specs.declared.value.ValuePart.TheVariants.{Named as NamedPart, Unnamed};
ghost use Rattle.gdmo_names.specs.ArcViews.{braces_arcs, name_and_number, of_name, one_number, part_arcs, value_arcs};
ghost use Rattle.gdmo_names.specs.MemberViews.{arc_number, first_term, identifier_term};
ghost use Rattle.gdmo_names.specs.TemplateTerms.FirstTerm.{ArcName, ArcNumber};
ghost use Rattle.identifier_arcs.specs.ArcTexts.{first_said, list_arcs, maybe_said, sure_first, sure_rest, text_term};
ghost use Rattle.identifier_arcs.specs.ArcTexts.{tokens_said};

use asn1_values_syntax::arcs::SureArcs;
use asn1_values_syntax::numbers::SignedNumber;
use asn1_values_syntax::value::{BracesText, NamedValue, ValuePart, ValueText};
use std::alloc::{AllocError, Global};
use token_grammar::Token;
use token_grammar::object_identifier::{Arc, FirstArc, ObjectIdentifier};

/// The first arc: its number, or a name that has a value.
#[derive(Clone, Copy)]
pub enum FirstText<'a> {
    /// The token of its number.
    Number(&'a Token),
    /// A name.
    Name(&'a Token),
}

/// An object identifier as it is written.
#[derive(Drop)]
pub struct IdentifierText<'a> {
    /// The brace with which it begins.
    pub brace: &'a Token,
    /// Its first arc.
    pub first: FirstText<'a>,
    /// The tokens of the numbers of the arcs behind the first, in order.
    pub others: Vec<&'a Token>,
}

/// The token of an arc's number.
fn arc_number(arc: &Arc) -> &Token
    ensures { result.now ≡ arc_number arc.now }
{
    match arc {
        Arc::Number(number) => number,
        Arc::Named { number, .. } => number,
    }
}

fn push_arcs<'a>(numbers: &mut Vec<&'a Token>, arcs: &'a [Arc]) -> Result<(), AllocError>
    ensures { OnOk result (tokens_said numbers.new.items ≡ tokens_said numbers.old.items ++ map arc_number arcs.now) }
{
    for arc in arcs.iter() {
        numbers.push(arc_number(arc))?;
    }
    Ok(())
}

/// The first arc of an identifier.
pub fn first_text(first: &FirstArc) -> FirstText
    ensures { first_said result ≡ first_term first.now }
{
    match first {
        FirstArc::OfArc(arc) => FirstText::Number(arc_number(arc)),
        FirstArc::Name(name) => FirstText::Name(name),
    }
}

/// An identifier of a template or a module.
pub fn identifier_text(
    alloc: Global,
    identifier: &ObjectIdentifier,
) -> Result<IdentifierText, AllocError>
    ensures { IfOk result (λ text. text_term text ≡ identifier_term identifier.now) }
{
    let mut others = Vec::new(alloc);
    push_arcs(&mut others, identifier.others.as_slice())?;
    Ok(IdentifierText {
        brace: &identifier.brace,
        first: first_text(&identifier.first),
        others,
    })
}

/// The first of arcs that have numbers.
fn sure_first(arcs: &SureArcs) -> &Token
    ensures { result.now ≡ sure_first arcs.now }
{
    match arcs {
        SureArcs::Number { first, .. } => first,
        SureArcs::Named { first, .. } => &first.number,
    }
}

/// Those behind it.
fn push_rest<'a>(numbers: &mut Vec<&'a Token>, arcs: &'a SureArcs) -> Result<(), AllocError>
    ensures { OnOk result (tokens_said numbers.new.items ≡ tokens_said numbers.old.items ++ sure_rest arcs.now) }
{
    match arcs {
        SureArcs::Number { second, others, .. } => {
            numbers.push(arc_number(second))?;
            push_arcs(numbers, others.as_slice())
        }
        SureArcs::Named { others, .. } => push_arcs(numbers, others.as_slice()),
    }
}

fn of_arcs<'a>(
    alloc: Global,
    brace: &'a Token,
    arcs: &'a SureArcs,
) -> Result<IdentifierText<'a>, AllocError>
    ensures { IfOk result (λ text. text_term text ≡
        record { brace = brace.now; first = ArcNumber (sure_first arcs.now); others = sure_rest arcs.now }) }
{
    let mut others = Vec::new(alloc);
    push_rest(&mut others, arcs)?;
    Ok(IdentifierText {
        brace,
        first: FirstText::Number(sure_first(arcs)),
        others,
    })
}

fn of_named_arcs<'a>(
    alloc: Global,
    brace: &'a Token,
    name: &'a Token,
    arcs: &'a SureArcs,
) -> Result<IdentifierText<'a>, AllocError>
    ensures { IfOk result (λ text. text_term text ≡
        record { brace = brace.now; first = ArcName name.now; others = sure_first arcs.now ∷ sure_rest arcs.now }) }
{
    let mut others = Vec::new(alloc);
    others.push(sure_first(arcs))?;
    push_rest(&mut others, arcs)?;
    Ok(IdentifierText {
        brace,
        first: FirstText::Name(name),
        others,
    })
}

/// `{number}`
fn of_number<'a>(
    alloc: Global,
    brace: &'a Token,
    number: &'a SignedNumber,
) -> Option<IdentifierText<'a>>
    ensures { maybe_said result ≡ one_number brace.now number.now }
{
    match &number.minus {
        Some(_) => None,
        None => Some(IdentifierText {
            brace,
            first: FirstText::Number(&number.number),
            others: Vec::new(alloc),
        }),
    }
}

/// `{name}`
fn of_name<'a>(alloc: Global, brace: &'a Token, name: &'a Token) -> IdentifierText<'a>
    ensures { Some (text_term result) ≡ of_name brace.now name.now [] }
{
    IdentifierText {
        brace,
        first: FirstText::Name(name),
        others: Vec::new(alloc),
    }
}

/// `{name number}`
fn of_name_and_number<'a>(
    alloc: Global,
    brace: &'a Token,
    name: &'a Token,
    number: &'a SignedNumber,
) -> Result<Option<IdentifierText<'a>>, AllocError>
    ensures { IfOk result (λ text. maybe_said text ≡ name_and_number brace.now name.now number.now) }
{
    match &number.minus {
        Some(_) => Ok(None),
        None => {
            let mut others = Vec::new(alloc);
            others.push(&number.number)?;
            Ok(Some(IdentifierText {
                brace,
                first: FirstText::Name(name),
                others,
            }))
        }
    }
}

/// A value alone in braces.
fn of_unnamed<'a>(
    alloc: Global,
    brace: &'a Token,
    value: &'a ValueText,
) -> Option<IdentifierText<'a>>
    ensures { maybe_said result ≡ part_arcs brace.now (Unnamed value.now) }
{
    match value {
        ValueText::Literal(_) => None,
        ValueText::Number(number) => of_number(alloc, brace, number),
        ValueText::Named(named) => match named {
            NamedValue::Name(name) => Some(of_name(alloc, brace, name)),
            NamedValue::Choice { .. } => None,
        },
        ValueText::Braces { .. } => None,
    }
}

/// A name and a value in braces.
fn of_named<'a>(
    alloc: Global,
    brace: &'a Token,
    name: &'a Token,
    value: &'a ValueText,
) -> Result<Option<IdentifierText<'a>>, AllocError>
    ensures { IfOk result (λ text. maybe_said text ≡ part_arcs brace.now (NamedPart name.now value.now)) }
{
    match value {
        ValueText::Literal(_) => Ok(None),
        ValueText::Number(number) => of_name_and_number(alloc, brace, name, number),
        ValueText::Named(_) => Ok(None),
        ValueText::Braces { .. } => Ok(None),
    }
}

/// `{number}`, `{name}` or `{name number}`.
fn of_part<'a>(
    alloc: Global,
    brace: &'a Token,
    part: &'a ValuePart,
) -> Result<Option<IdentifierText<'a>>, AllocError>
    ensures { IfOk result (λ text. maybe_said text ≡ part_arcs brace.now part.now) }
{
    match part {
        ValuePart::Named { name, value } => of_named(alloc, brace, name, value),
        ValuePart::Unnamed(value) => Ok(of_unnamed(alloc, brace, value)),
    }
}

/// The same of the parts in braces.
fn of_parts<'a>(
    alloc: Global,
    brace: &'a Token,
    parts: &'a [ValuePart],
) -> Result<Option<IdentifierText<'a>>, AllocError>
    ensures { IfOk result (λ text. maybe_said text ≡ list_arcs brace.now parts.now) }
{
    if parts.len() == 1 {
        of_part(alloc, brace, &parts[0])
    } else {
        Ok(None)
    }
}

/// The content of braces as an object identifier, where it can be read as one.
fn of_content<'a>(
    alloc: Global,
    brace: &'a Token,
    content: &'a BracesText,
) -> Result<Option<IdentifierText<'a>>, AllocError>
    ensures { IfOk result (λ text. maybe_said text ≡ braces_arcs brace.now content.now) }
{
    match content {
        BracesText::Nothing => Ok(None),
        BracesText::Parts(parts) => of_parts(alloc, brace, parts.as_slice()),
        BracesText::Arcs(arcs) => Ok(Some(of_arcs(alloc, brace, arcs)?)),
        BracesText::NamedArcs { first, others } => {
            Ok(Some(of_named_arcs(alloc, brace, first, others)?))
        }
    }
}

/// A value as an object identifier, where it can be read as one.
pub fn value_text(alloc: Global, value: &ValueText) -> Result<Option<IdentifierText>, AllocError>
    ensures { IfOk result (λ text. maybe_said text ≡ value_arcs value.now) }
{
    match value {
        ValueText::Literal(_) => Ok(None),
        ValueText::Number(_) => Ok(None),
        ValueText::Named(_) => Ok(None),
        ValueText::Braces { brace, content } => of_content(alloc, brace, content),
    }
}
