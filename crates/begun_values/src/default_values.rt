//! The first names in the values behind DEFAULT in a type (X.680, section 25; docs/PROFILE.md, section 12).

ghost use Rattle.std.specs.Prelude.{◌≡◌, ◌↔◌, ℕ, List, OnOk, Some, option_map, true};
ghost use Rattle.asn1_names.specs.ModuleTerms.{ModuleTerm};
ghost use Rattle.asn1_names.specs.TermViews.{module_terms, presence_term, type_term};
ghost use Rattle.asn1_values_syntax.specs.ValueTrees.{value_tree};
ghost use Rattle.gdmo_begun_names.specs.BegunMarks.{DefinesSome, Marks};
ghost use Rattle.begun_values.specs.DefaultNames.{ComponentFirsts, DefaultFirsts, DenotedFirsts, MayFirsts, OwnFirsts};
ghost use Rattle.begun_values.specs.DefaultNames.{default_text, part_at, part_of, parts_in, syntax_beneath};
ghost use Rattle.begun_values.specs.MeantSyntaxes.{DenotesThis, MeansType};

use crate::resolved_modules::ResolvedModules;
use asn1_names::name_tables::Meaning;
use asn1_syntax::presence::Presence;
use asn1_syntax::type_text::{Component, StructureText, TypeText};
use asn1_values_syntax::value::ValueText;
use gdmo_begun_names::begun_names::BegunNames;
use gdmo_begun_names::value_names::mark_names;
use std::alloc::AllocError;
use term_values::{Parts, Syntax, SyntaxForm};

/// The value behind DEFAULT.
fn default_of(component: &Component) -> Option<&ValueText>
    ensures { option_map (λ value. value_tree value.now) result ≡ default_text (presence_term component.now.presence) }
{
    match &component.presence {
        Some(presence) => match &**presence {
            Presence::Default(value) => Some(value),
            Presence::Optional(_) => None,
        },
        None => None,
    }
}

/// Whether names may stand in the value behind DEFAULT of a component itself.
fn own_may_have(names: &BegunNames, component: &Component) -> bool
    ensures { (result ≡ true) ↔ DefinesSome (OwnFirsts MayFirsts (type_term component.now.of)
        (default_text (presence_term component.now.presence))) names.now }
{
    match default_of(component) {
        Some(value) => names.may_stand_in(value),
        None => false,
    }
}

/// Whether names may stand in values behind DEFAULT at a component, or in its type.
#[cycle(default_names)]
fn component_may_have(names: &BegunNames, component: &Component) -> bool
    ensures { (result ≡ true) ↔ DefinesSome (ComponentFirsts MayFirsts component.now) names.now }
{
    if own_may_have(names, component) {
        true
    } else {
        have_names(names, &component.of)
    }
}

/// Whether names may stand in values behind DEFAULT in a type.
#[cycle(default_names)]
pub(crate) fn have_names(names: &BegunNames, of: &TypeText) -> bool
    ensures { (result ≡ true) ↔ DefinesSome (DefaultFirsts MayFirsts (type_term of.now)) names.now }
{
    match of {
        TypeText::Tagged { of, .. } => have_names(names, of),
        TypeText::Structured { content, .. } => match content {
            StructureText::Components { components, .. } => match components {
                Some(components) => {
                    for component in components.iter() {
                        if component_may_have(names, component) {
                            return true;
                        }
                    }
                    false
                }
                None => false,
            },
            StructureText::ListOf { of, .. } => have_names(names, of),
        },
        TypeText::Choice { alternatives, .. } => {
            for alternative in alternatives.iter() {
                if have_names(names, &alternative.of) {
                    return true;
                }
            }
            false
        }
        TypeText::Plain { .. } => false,
    }
}

/// The components of a SEQUENCE or SET, or the alternatives of a CHOICE.
fn parts_of(syntax: &Syntax) -> Option<&Parts>
    ensures { option_map (λ parts. parts.now) result ≡ parts_in syntax.now }
{
    match &syntax.form {
        SyntaxForm::Seq(parts) => Some(parts),
        SyntaxForm::Unordered(parts) => Some(parts),
        SyntaxForm::Choice(parts) => Some(parts),
        SyntaxForm::Tagged(_, _, _) => None,
        SyntaxForm::ListOf(_, _) => None,
        SyntaxForm::SetOf(_, _) => None,
        SyntaxForm::Filter => None,
        SyntaxForm::Oid => None,
        SyntaxForm::Bool => None,
        SyntaxForm::Int(_, _) => None,
        SyntaxForm::Enumerated(_) => None,
        SyntaxForm::Bits(_, _) => None,
        SyntaxForm::Octets(_) => None,
        SyntaxForm::Null => None,
        SyntaxForm::Text(_, _) => None,
        SyntaxForm::Time => None,
        SyntaxForm::Any => None,
    }
}

/// The syntax under a tag, or of the elements of a list.
fn beneath_one(syntax: &Syntax) -> Option<&Syntax>
    ensures { option_map (λ beneath. beneath.now) result ≡ syntax_beneath (Some syntax.now) }
{
    match &syntax.form {
        SyntaxForm::Tagged(_, _, of) => Some(of),
        SyntaxForm::ListOf(of, _) => Some(of),
        SyntaxForm::SetOf(of, _) => Some(of),
        SyntaxForm::Seq(_) => None,
        SyntaxForm::Unordered(_) => None,
        SyntaxForm::Choice(_) => None,
        SyntaxForm::Filter => None,
        SyntaxForm::Oid => None,
        SyntaxForm::Bool => None,
        SyntaxForm::Int(_, _) => None,
        SyntaxForm::Enumerated(_) => None,
        SyntaxForm::Bits(_, _) => None,
        SyntaxForm::Octets(_) => None,
        SyntaxForm::Null => None,
        SyntaxForm::Text(_, _) => None,
        SyntaxForm::Time => None,
        SyntaxForm::Any => None,
    }
}

/// The same of a syntax that may be missing.
fn beneath<'s>(syntax: Option<&'s Syntax>) -> Option<&'s Syntax>
    ensures { option_map (λ beneath. beneath.now) result ≡ syntax_beneath (option_map (λ one. one.now) syntax.entry) }
{
    match syntax {
        Some(syntax) => beneath_one(syntax),
        None => None,
    }
}

/// The syntax of the part at a place, of these parts.
fn part_in<'s>(parts: Option<&'s Parts>, place: usize) -> Option<&'s Syntax>
    ensures { option_map (λ part. part.now) result ≡ part_of (option_map (λ one. one.now) parts.entry) place }
{
    match parts {
        Some(parts) => match parts.items.get(place) {
            Some(part) => Some(&part.syntax),
            None => None,
        },
        None => None,
    }
}

/// The syntax of the part at a place.
fn part_at<'s>(syntax: Option<&'s Syntax>, place: usize) -> Option<&'s Syntax>
    ensures { option_map (λ part. part.now) result ≡ part_at (option_map (λ one. one.now) syntax.entry) place }
{
    match syntax {
        Some(syntax) => part_in(parts_of(syntax), place),
        None => None,
    }
}

/// Marks the names in the value behind DEFAULT of a component itself, which has this syntax.
fn mark_own(names: &mut BegunNames, component: &Component, syntax: Option<&Syntax>)
    ensures { (ms : List ModuleTerm) (m : ℕ) →
        DenotesThis ms m (type_term component.now.of) (option_map (λ one. one.now) syntax.entry) →
        Marks (OwnFirsts (DenotedFirsts ms m) (type_term component.now.of)
        (default_text (presence_term component.now.presence))) names.old names.new }
{
    match default_of(component) {
        Some(value) => match syntax {
            Some(syntax) => mark_names(names, value, syntax),
            None => {}
        },
        None => {}
    }
}

/// Marks the names in the values behind DEFAULT at a component, and in its type, which has this syntax.
#[cycle(default_marks)]
fn mark_component(names: &mut BegunNames, component: &Component, syntax: Option<&Syntax>)
    ensures { (ms : List ModuleTerm) (m : ℕ) →
        DenotesThis ms m (type_term component.now.of) (option_map (λ one. one.now) syntax.entry) →
        Marks (ComponentFirsts (DenotedFirsts ms m) component.now) names.old names.new }
{
    mark_own(names, component, syntax);
    mark_defaults(names, &component.of, syntax);
}

/// Marks the names in the values behind DEFAULT in a type, which has this syntax.
#[cycle(default_marks)]
fn mark_defaults(names: &mut BegunNames, of: &TypeText, syntax: Option<&Syntax>)
    ensures { (ms : List ModuleTerm) (m : ℕ) →
        DenotesThis ms m (type_term of.now) (option_map (λ one. one.now) syntax.entry) →
        Marks (DefaultFirsts (DenotedFirsts ms m) (type_term of.now)) names.old names.new }
{
    match of {
        TypeText::Tagged { of, .. } => mark_defaults(names, of, beneath(syntax)),
        TypeText::Structured { content, .. } => match content {
            StructureText::Components { components, .. } => match components {
                Some(components) => {
                    for (k, component) in components.iter().enumerate() {
                        mark_component(names, component, part_at(syntax, k));
                    }
                }
                None => {}
            },
            StructureText::ListOf { of, .. } => mark_defaults(names, of, beneath(syntax)),
        },
        TypeText::Choice { alternatives, .. } => {
            for (k, alternative) in alternatives.iter().enumerate() {
                mark_defaults(names, &alternative.of, part_at(syntax, k));
            }
        }
        TypeText::Plain { .. } => {}
    }
}

/// Marks the names in the values behind DEFAULT in a type, of what is meant.
pub(crate) fn mark_type_defaults(
    modules: &ResolvedModules,
    meaning: Meaning,
    of: &TypeText,
    names: &mut BegunNames,
) -> Result<(), AllocError>
    ensures { OnOk result ((m : ℕ) → MeansType (module_terms modules.now.types.now) m (type_term of.now) meaning →
        Marks (DefaultFirsts (DenotedFirsts (module_terms modules.now.types.now) m) (type_term of.now)) names.old
        names.new) }
{
    let syntax = modules.types.syntax(modules.alloc, meaning)?;
    mark_defaults(names, of, syntax.as_ref());
    Ok(())
}
