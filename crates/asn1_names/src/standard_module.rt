//! The module CMIP-1, which is built in: its types and their syntaxes (X.711, section 7.5).

ghost use Rattle.std.specs.Prelude.{◌≡◌, ◌+◌, [], ◌∷◌, IfOk, OnOk, length, option_map};
ghost use Rattle.term_values.specs.CmipTypes.{attribute, attribute_value_assertion, identifier, implicit};
ghost use Rattle.term_values.specs.CmipTypes.{object_instance, one, rdn_sequence};
ghost use Rattle.term_values.specs.Syntaxes.{TypeParts};
ghost use Rattle.term_values.specs.declared.syntax.SyntaxForm.TheVariants as forms;
ghost use Rattle.term_values.specs.SyntaxView.{syntax_of};
ghost use Rattle.asn1_names.specs.NodeCount.{syntax_count};
ghost use Rattle.asn1_names.specs.PartsInFront.{in_front};
ghost use Rattle.asn1_names.specs.StandardModule.{is_same_name, standard_module_name, standard_type};
ghost use Rattle.asn1_names.specs.WordViews.{standard_syntax_of};

use crate::type_words::is_named;
use std::alloc::{AllocError, Global};
use std::boxed::Box;
use term_values::bytes::Bytes;
use term_values::{Names, Part, Parts, Ranges, Syntax, SyntaxForm, Tag};

/// The class of tags whose meaning depends on the type round them.
const CONTEXT: u8 = 2;

/// A type of CMIP-1.
#[derive(Clone, Copy, PartialEq, Eq)]
pub enum StandardType {
    /// ObjectClass.
    ObjectClass,
    /// AttributeId.
    AttributeId,
    /// ActionTypeId.
    ActionTypeId,
    /// EventTypeId.
    EventTypeId,
    /// ObjectInstance.
    ObjectInstance,
    /// RDNSequence.
    RdnSequence,
    /// Attribute.
    Attribute,
    /// CMISFilter.
    Filter,
}

/// Whether a name is the module's.
pub fn is_standard_module(name: &[u8]) -> bool
    ensures { result ≡ is_same_name name.now standard_module_name }
{
    is_named(name, "CMIP-1")
}

/// The type of CMIP-1 that a name names; none where the module has none of this name.
pub fn standard_type(name: &[u8]) -> Option<StandardType>
    ensures { option_map standard_syntax_of result ≡ standard_type name.now }
{
    if is_named(name, "ObjectClass") {
        Some(StandardType::ObjectClass)
    } else if is_named(name, "AttributeId") {
        Some(StandardType::AttributeId)
    } else if is_named(name, "ActionTypeId") {
        Some(StandardType::ActionTypeId)
    } else if is_named(name, "EventTypeId") {
        Some(StandardType::EventTypeId)
    } else if is_named(name, "ObjectInstance") {
        Some(StandardType::ObjectInstance)
    } else if is_named(name, "RDNSequence") {
        Some(StandardType::RdnSequence)
    } else if is_named(name, "Attribute") {
        Some(StandardType::Attribute)
    } else if is_named(name, "CMISFilter") {
        Some(StandardType::Filter)
    } else {
        None
    }
}

/// How many nodes its syntax has.
pub fn standard_nodes(standard: StandardType) -> usize
    ensures { result ≡ syntax_count (standard_syntax_of standard) }
{
    match standard {
        StandardType::ObjectClass
        | StandardType::AttributeId
        | StandardType::ActionTypeId
        | StandardType::EventTypeId => 5,
        StandardType::ObjectInstance => 15,
        StandardType::RdnSequence => 5,
        StandardType::Attribute => 7,
        StandardType::Filter => 1,
    }
}

fn of_form(form: SyntaxForm) -> Syntax
    ensures { result ≡ syntax_of form }
{
    Syntax { form }
}

/// A type under an implicit tag of the context.
fn implicit_syntax(alloc: Global, number: u32, of: Syntax) -> Result<Syntax, AllocError>
    ensures { IfOk result (λ syntax. syntax ≡ implicit number of) }
{
    let tag = Tag {
        class: CONTEXT,
        number,
    };
    Ok(of_form(SyntaxForm::Tagged(tag, false, Box::new(alloc, of)?)))
}

/// A component or an alternative.
fn part_of(alloc: Global, name: &str, syntax: Syntax) -> Result<Part, AllocError>
    ensures { IfOk result (λ part. (rest : TypeParts) → in_front (part ∷ []) rest ≡ one name.now syntax rest) }
{
    Ok(Part {
        name: Bytes::from_slice(alloc, name.as_bytes())?,
        syntax,
        optional: false,
        default: None,
    })
}

/// Appends a component or an alternative.
fn add_part(
    alloc: Global,
    name: &str,
    syntax: Syntax,
    into: &mut Vec<Part>,
) -> Result<(), AllocError>
    ensures appended { OnOk result
        ((rest : TypeParts) → in_front into.new.items rest ≡ in_front into.old.items (one name.now syntax rest)) }
    ensures counted { OnOk result (length into.new.items ≡ length into.old.items + 1) }
{
    into.push(part_of(alloc, name, syntax)?)?;
    Ok(())
}

/// Appends an alternative under an implicit tag.
fn add_tagged(
    alloc: Global,
    name: &str,
    number: u32,
    of: Syntax,
    into: &mut Vec<Part>,
) -> Result<(), AllocError>
    ensures appended { OnOk result ((rest : TypeParts) →
        in_front into.new.items rest ≡ in_front into.old.items (one name.now (implicit number of) rest)) }
    ensures counted { OnOk result (length into.new.items ≡ length into.old.items + 1) }
{
    let syntax = implicit_syntax(alloc, number, of)?;
    add_part(alloc, name, syntax, into)
}

/// The alternatives of an identifier.
fn identifier_parts(alloc: Global, global: u32, local: u32) -> Result<Parts, AllocError>
    ensures { IfOk result (λ parts. syntax_of (forms.Choice parts) ≡ identifier global local) }
{
    let mut items = Vec::new(alloc);
    add_tagged(
        alloc,
        "globalForm",
        global,
        of_form(SyntaxForm::Oid),
        &mut items,
    )?;
    let number = SyntaxForm::Int(Names::new(alloc), Ranges::new(alloc));
    add_tagged(alloc, "localForm", local, of_form(number), &mut items)?;
    Ok(Parts { items })
}

/// An identifier in globalForm or localForm.
fn identifier_syntax(alloc: Global, global: u32, local: u32) -> Result<Syntax, AllocError>
    ensures { IfOk result (λ syntax. syntax ≡ identifier global local) }
{
    let parts = identifier_parts(alloc, global, local)?;
    Ok(of_form(SyntaxForm::Choice(parts)))
}

/// The assertion of one attribute's value.
fn assertion_syntax(alloc: Global) -> Result<Syntax, AllocError>
    ensures { IfOk result (λ syntax. syntax ≡ attribute_value_assertion) }
{
    let mut items = Vec::new(alloc);
    add_part(alloc, "", of_form(SyntaxForm::Oid), &mut items)?;
    add_part(alloc, "", of_form(SyntaxForm::Any), &mut items)?;
    Ok(of_form(SyntaxForm::Seq(Parts { items })))
}

fn rdn_sequence_syntax(alloc: Global) -> Result<Syntax, AllocError>
    ensures { IfOk result (λ syntax. syntax ≡ rdn_sequence) }
{
    let assertion = Box::new(alloc, assertion_syntax(alloc)?)?;
    let rdn = of_form(SyntaxForm::SetOf(assertion, Ranges::new(alloc)));
    Ok(of_form(SyntaxForm::ListOf(Box::new(alloc, rdn)?, Ranges::new(alloc))))
}

/// The alternatives of ObjectInstance.
fn instance_parts(alloc: Global) -> Result<Parts, AllocError>
    ensures { IfOk result (λ parts. syntax_of (forms.Choice parts) ≡ object_instance) }
{
    let mut items = Vec::new(alloc);
    add_tagged(
        alloc,
        "distinguishedName",
        2,
        rdn_sequence_syntax(alloc)?,
        &mut items,
    )?;
    let octets = SyntaxForm::Octets(Ranges::new(alloc));
    add_tagged(alloc, "nonSpecificForm", 3, of_form(octets), &mut items)?;
    add_tagged(
        alloc,
        "localDistinguishedName",
        4,
        rdn_sequence_syntax(alloc)?,
        &mut items,
    )?;
    Ok(Parts { items })
}

fn object_instance_syntax(alloc: Global) -> Result<Syntax, AllocError>
    ensures { IfOk result (λ syntax. syntax ≡ object_instance) }
{
    let parts = instance_parts(alloc)?;
    Ok(of_form(SyntaxForm::Choice(parts)))
}

fn attribute_syntax(alloc: Global) -> Result<Syntax, AllocError>
    ensures { IfOk result (λ syntax. syntax ≡ attribute) }
{
    let mut items = Vec::new(alloc);
    add_part(
        alloc,
        "attributeId",
        identifier_syntax(alloc, 0, 1)?,
        &mut items,
    )?;
    add_part(
        alloc,
        "attributeValue",
        of_form(SyntaxForm::Any),
        &mut items,
    )?;
    Ok(of_form(SyntaxForm::Seq(Parts { items })))
}

/// The syntax of a type of CMIP-1; only memory can fail.
pub fn standard_syntax(alloc: Global, standard: StandardType) -> Result<Syntax, AllocError>
    ensures { IfOk result (λ syntax. syntax ≡ standard_syntax_of standard) }
{
    match standard {
        StandardType::ObjectClass | StandardType::AttributeId => identifier_syntax(alloc, 0, 1),
        StandardType::ActionTypeId => identifier_syntax(alloc, 2, 3),
        StandardType::EventTypeId => identifier_syntax(alloc, 6, 7),
        StandardType::ObjectInstance => object_instance_syntax(alloc),
        StandardType::RdnSequence => rdn_sequence_syntax(alloc),
        StandardType::Attribute => attribute_syntax(alloc),
        StandardType::Filter => Ok(of_form(SyntaxForm::Filter)),
    }
}
