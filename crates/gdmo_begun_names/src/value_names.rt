//! With which first names the object identifiers begin that stand in a value of a syntax (X.680, sections 17 to 32;
//! docs/PROFILE.md, sections 8 and 12).

ghost use Rattle.std.specs.Prelude.{◌≡◌, ◌↔◌};
ghost use Rattle.token_grammar.specs.declared.token.Token.{Token as AToken};
ghost use Rattle.token_grammar.specs.Form.{Tree};
ghost use Rattle.asn1_values_syntax.specs.ValueTrees.{part_tree, value_tree};
ghost use Rattle.gdmo_names.specs.ValueNames.{BeginsIn};
ghost use Rattle.gdmo_begun_names.specs.BegunMarks.{Marks};
ghost use Rattle.gdmo_begun_names.specs.PartNames.{BeginsPart, IsElement, IsNamedComponent, IsUnnamedComponent};
ghost use Rattle.gdmo_begun_names.specs.Walks.{BeginsBy, BeginsValue};

use crate::begun_names::{BegunNames, part_called};
use crate::filter_names::{FilterPlace, mark_at};
use asn1_values_syntax::value::{BracesText, NamedValue, ValuePart, ValueText};
use term_values::{Parts, Syntax, SyntaxForm};

/// What stands in values of a syntax.
#[derive(Clone, Copy, Drop)]
pub enum Walk<'s> {
    /// An object identifier.
    Arcs,
    /// A CMISFilter.
    Filter,
    /// One of these alternatives.
    Alternatives(&'s Parts),
    /// These components.
    Components(&'s Parts),
    /// Elements of this syntax.
    Elements(&'s Syntax),
    /// Nothing that object identifiers stand in.
    Nothing,
}

/// What stands in values of a syntax, beneath its tags.
fn walk_of(syntax: &Syntax) -> Walk<'_>
    ensures { (text : Tree) (first : AToken) → BeginsBy result text first ↔ BeginsIn first syntax.now text }
{
    let mut left = syntax;
    'tags: loop {
        match &left.form {
            SyntaxForm::Tagged(_, _, of) => left = of,
            SyntaxForm::Oid => return Walk::Arcs,
            SyntaxForm::Filter => return Walk::Filter,
            SyntaxForm::Choice(parts) => return Walk::Alternatives(parts),
            SyntaxForm::Seq(parts) => return Walk::Components(parts),
            SyntaxForm::Unordered(parts) => return Walk::Components(parts),
            SyntaxForm::ListOf(of, _) => return Walk::Elements(of),
            SyntaxForm::SetOf(of, _) => return Walk::Elements(of),
            SyntaxForm::Bool => return Walk::Nothing,
            SyntaxForm::Int(_, _) => return Walk::Nothing,
            SyntaxForm::Enumerated(_) => return Walk::Nothing,
            SyntaxForm::Bits(_, _) => return Walk::Nothing,
            SyntaxForm::Octets(_) => return Walk::Nothing,
            SyntaxForm::Null => return Walk::Nothing,
            SyntaxForm::Text(_, _) => return Walk::Nothing,
            SyntaxForm::Time => return Walk::Nothing,
            SyntaxForm::Any => return Walk::Nothing,
        }
    }
}

/// Marks the names in a part that has its name, of braces that hold components.
#[cycle(begun_values)]
fn mark_called(names: &mut BegunNames, part: &ValuePart, components: &Parts)
    ensures { Marks (BeginsPart (IsNamedComponent components.now) (part_tree part.now)) names.old names.new }
{
    match part {
        ValuePart::Named { name, value } => {
            if !name.text.as_slice().is_empty() {
                match part_called(components, name.text.as_slice()) {
                    Some(syntax) => mark_names(names, value, syntax),
                    None => {}
                }
            }
        }
        ValuePart::Unnamed(_) => {}
    }
}

/// Marks the names in a part that has no name, of braces that hold components.
#[cycle(begun_values)]
fn mark_unnamed(names: &mut BegunNames, part: &ValuePart, components: &Parts)
    ensures { Marks (BeginsPart (IsUnnamedComponent components.now) (part_tree part.now)) names.old names.new }
{
    for component in components.items.iter() {
        if component.name.as_slice().is_empty() {
            match part {
                ValuePart::Named { name, value } => {
                    if name.text.as_slice().is_empty() {
                        mark_names(names, value, &component.syntax);
                    }
                }
                ValuePart::Unnamed(value) => mark_names(names, value, &component.syntax),
            }
        }
    }
}

/// Marks the names in a part of braces that hold elements.
#[cycle(begun_values)]
fn mark_element(names: &mut BegunNames, part: &ValuePart, of: &Syntax)
    ensures { Marks (BeginsPart (IsElement of.now) (part_tree part.now)) names.old names.new }
{
    match part {
        ValuePart::Named { name, value } => {
            if name.text.as_slice().is_empty() {
                mark_names(names, value, of);
            }
        }
        ValuePart::Unnamed(value) => mark_names(names, value, of),
    }
}

/// Marks the names with which the object identifiers begin that stand in a value of a syntax.
#[cycle(begun_values)]
pub fn mark_names(names: &mut BegunNames, value: &ValueText, syntax: &Syntax)
    ensures { Marks (BeginsValue syntax.now (value_tree value.now)) names.old names.new }
{
    match walk_of(syntax) {
        Walk::Arcs => names.mark_arcs(value),
        Walk::Filter => mark_at(names, FilterPlace::Filter, value),
        Walk::Alternatives(parts) => {
            if let ValueText::Named(NamedValue::Choice { name, value }) = value {
                match part_called(parts, name.text.as_slice()) {
                    Some(chosen) => mark_names(names, value, chosen),
                    None => {}
                }
            }
        }
        Walk::Components(components) => {
            if let ValueText::Braces { content, .. } = value {
                if let BracesText::Parts(parts) = content {
                    for part in parts.iter() {
                        mark_called(names, part, components);
                        mark_unnamed(names, part, components);
                    }
                }
            }
        }
        Walk::Elements(of) => {
            if let ValueText::Braces { content, .. } = value {
                if let BracesText::Parts(parts) = content {
                    for part in parts.iter() {
                        mark_element(names, part, of);
                    }
                }
            }
        }
        Walk::Nothing => {}
    }
}
