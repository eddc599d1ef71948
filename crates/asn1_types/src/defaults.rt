//! Which text of DEFAULT stands beside the syntax of a type (X.680, section 25.1; docs/PROFILE.md, section 11).

ghost use Rattle.std.specs.Prelude.{◌∷◌, ℕ, IfOk, List, map};
ghost use Rattle.token_grammar.specs.declared.token.Token.{Token};
ghost use Rattle.asn1_names.specs.Containment.{IsMember};
ghost use Rattle.asn1_names.specs.FirstModuleFault.{AreFaultless};
ghost use Rattle.asn1_names.specs.ModuleTerms.{LimitTerm, MemberTerms, ModuleTerm};
ghost use Rattle.asn1_names.specs.ModuleTerms.PresenceTerm.{Needed};
ghost use Rattle.asn1_names.specs.ModuleTerms.TypeTerm.{Alternatives, Structure};
ghost use Rattle.asn1_names.specs.Occurrences.{Stands};
ghost use Rattle.asn1_names.specs.TermViews.{module_terms, presence_term, structure_term, type_term};
ghost use Rattle.asn1_names.specs.TypeWalks.{IsNoName};
ghost use Rattle.asn1_types.specs.BuiltSyntaxes.{alternative_member, component_member};
ghost use Rattle.asn1_types.specs.MeasuredTypes.{IsMeasured, members_listed};
ghost use Rattle.asn1_types.specs.SoughtDefaults.{IsDefaultOf, TellsDefault, TellsSought};

use crate::building::MOST_NODES;
use crate::following::follow;
use asn1_numbers::number_tables::Numbers;
use asn1_syntax::ValueText;
use asn1_syntax::presence::Presence;
use asn1_syntax::type_text::{Alternative, Component, StructureText, TypeText};
use std::alloc::{AllocError, Global};
use std::boxed::Box;

/// Where a text of DEFAULT is.
pub enum Sought<'p, 'a> {
    /// This is it.
    Text(&'a ValueText),
    /// In this type, at this path.
    Within(&'a TypeText, &'p [usize]),
    /// Nowhere.
    Nothing,
}

/// The text of a component's DEFAULT.
fn default_of(presence: &Option<Box<Presence>>) -> Option<&ValueText>
    ensures { IsDefaultOf (presence_term presence.now) result }
{
    match presence {
        Some(presence) => match &**presence {
            Presence::Default(text) => Some(text),
            Presence::Optional(_) => None,
        },
        None => None,
    }
}

/// Where the text at a path is, of a component that stands at the path's first number; `rest` is what is behind it.
fn in_component<'p, 'a>(component: &'a Component, rest: &'p [usize]) -> Sought<'p, 'a>
    ensures { (ms : List ModuleTerm) (m k : ℕ) (word : Token) (members : MemberTerms) (limits : List LimitTerm) →
        IsMember members k (type_term component.now.of) (presence_term component.now.presence) →
        TellsSought ms m (Structure word members limits) (k ∷ rest.now) m result }
{
    if !rest.is_empty() {
        return Sought::Within(&component.of, rest);
    }
    match default_of(&component.presence) {
        Some(text) => Sought::Text(text),
        None => Sought::Nothing,
    }
}

/// Where the text at a path is, of the components of a SEQUENCE or SET.
fn in_components<'p, 'a>(components: &'a [Component], path: &'p [usize]) -> Sought<'p, 'a>
    ensures { (ms : List ModuleTerm) (m : ℕ) (word : Token) (limits : List LimitTerm) →
        TellsSought ms m (Structure word (members_listed (map component_member components.now)) limits) path.now m
        result }
{
    match path {
        [place, rest @ ..] => match components.get(*place) {
            Some(component) => in_component(component, rest),
            None => Sought::Nothing,
        },
        [] => Sought::Nothing,
    }
}

/// Where the text at a path is, of an alternative that stands at the path's first number; `rest` is what is behind it.
/// An alternative itself has no DEFAULT.
fn in_alternative<'p, 'a>(alternative: &'a Alternative, rest: &'p [usize]) -> Sought<'p, 'a>
    ensures { (ms : List ModuleTerm) (m k : ℕ) (word : Token) (members : MemberTerms) (limits : List LimitTerm) →
        IsMember members k (type_term alternative.now.of) Needed →
        TellsSought ms m (Alternatives word members limits) (k ∷ rest.now) m result }
{
    Sought::Within(&alternative.of, rest)
}

/// Where the text at a path is, of the alternatives of a CHOICE.
fn in_alternatives<'p, 'a>(alternatives: &'a [Alternative], path: &'p [usize]) -> Sought<'p, 'a>
    ensures { (ms : List ModuleTerm) (m : ℕ) (word : Token) (limits : List LimitTerm) →
        TellsSought ms m (Alternatives word (members_listed (map alternative_member alternatives.now)) limits) path.now
        m result }
{
    match path {
        [place, rest @ ..] => match alternatives.get(*place) {
            Some(alternative) => in_alternative(alternative, rest),
            None => Sought::Nothing,
        },
        [] => Sought::Nothing,
    }
}

/// Where the text at a path is, in SEQUENCE, SET, SEQUENCE OF or SET OF.
fn in_structure<'p, 'a>(content: &'a StructureText, path: &'p [usize]) -> Sought<'p, 'a>
    ensures { (ms : List ModuleTerm) (m : ℕ) (word : Token) →
        TellsSought ms m (structure_term word content.now) path.now m result }
{
    match content {
        StructureText::Components { components, .. } => match components {
            Some(components) => in_components(components.as_slice(), path),
            None => Sought::Nothing,
        },
        StructureText::ListOf { of: inner, .. } => Sought::Within(inner, path),
    }
}

/// Where the text at a path is, in a type that is no name.
fn in_type<'p, 'a>(of: &'a TypeText, path: &'p [usize]) -> Sought<'p, 'a>
    ensures { (ms : List ModuleTerm) (m : ℕ) → IsNoName (type_term of.now) →
        TellsSought ms m (type_term of.now) path.now m result }
{
    match of {
        TypeText::Tagged { of: inner, .. } => Sought::Within(inner, path),
        TypeText::Structured { content, .. } => in_structure(content, path),
        TypeText::Choice { alternatives, .. } => in_alternatives(alternatives.as_slice(), path),
        TypeText::Plain { .. } => Sought::Nothing,
    }
}

/// Where the text at a path is, in a type that may be a name, with the place of the module of the type to which it
/// leads.
fn sought_in<'p, 'a>(
    alloc: Global,
    numbers: &Numbers<'a>,
    home: usize,
    of: &'a TypeText,
    path: &'p [usize],
) -> Result<(usize, Sought<'p, 'a>), AllocError>
    ensures { IfOk result (λ told. (document : ℕ) → AreFaultless (module_terms numbers.now) →
        Stands (module_terms numbers.now) document home (type_term of.now) →
        TellsSought (module_terms numbers.now) home (type_term of.now) path.now told.0 told.1) }
{
    let followed = follow(alloc, numbers, home, of)?;
    match followed.standard {
        Some(_) => Ok((home, Sought::Nothing)),
        None => Ok((followed.home, in_type(followed.of, path))),
    }
}

/// The text at a path, of a type of a module without faults, with the place of the module in which it is written. A
/// step within a type leaves fewer nodes, so that the loop ends before its bound.
pub fn default_within<'a>(
    alloc: Global,
    numbers: &Numbers<'a>,
    home: usize,
    of: &'a TypeText,
    path: &[usize],
) -> Result<Option<(usize, &'a ValueText)>, AllocError>
    ensures { IfOk result (λ told. IsMeasured (module_terms numbers.now) home (type_term of.now) 10000 →
        TellsDefault (module_terms numbers.now) home (type_term of.now) path.now told) }
{
    let mut at = home;
    let mut left = of;
    let mut rest = path;
    for _step in 0..MOST_NODES + 1 {
        let (further, sought) = sought_in(alloc, numbers, at, left, rest)?;
        match sought {
            Sought::Text(text) => return Ok(Some((further, text))),
            Sought::Within(inner, behind) => {
                at = further;
                left = inner;
                rest = behind;
            }
            Sought::Nothing => return Ok(None),
        }
    }
    Ok(None)
}
