//! Of which type each attribute is: of that of its syntax, or of the attribute from which it derives (X.722, section
//! 8.7; docs/PROFILE.md, section 12).

ghost use Rattle.std.specs.Prelude.{◌≡◌, IfOk};
ghost use Rattle.asn1_names.specs.TermViews.{module_terms};
ghost use Rattle.gdmo_names.specs.FoundViews.{found_view};
ghost use Rattle.gdmo_names.specs.InStep.{AreEach};
ghost use Rattle.gdmo_names.specs.PartTerms.{PartTerms, module_terms_of};
ghost use Rattle.gdmo_names.specs.TargetTables.{AreFound, AreTargets};
ghost use Rattle.gdmo_types.specs.AttributeTypes.{AreAttributeTypes};
ghost use Rattle.gdmo_types.specs.TypeChains.{AreTypeLinks, IsTypeLink, TellsChain, TellsNamedType};
ghost use Rattle.gdmo_types.specs.TypeChains.{TellsStated};

use crate::role_targets::target_in_role;
pub use crate::role_targets::targets_in_role;
use asn1_names::Meaning;
use asn1_types::Types;
use gdmo_members::attribute::AttributeSyntax;
use gdmo_names::found::{Body, Found};
use gdmo_names::roles::Role;
use link_graphs::{Link, chain_ends};
use std::alloc::{AllocError, Global};
use token_grammar::qualified_name::QualifiedName;

/// The type of an attribute.
#[derive(Clone, Copy)]
pub enum AttributeType {
    /// The type that a name means.
    Of(Meaning),
    /// None: the attribute derives from itself.
    Endless,
    /// It isn't known: a name on the way to it means nothing, or no type, or no attribute.
    Missing,
}

/// The type that `Module.Type` means.
pub fn type_meaning(types: &Types, name: &QualifiedName) -> Option<Meaning>
    ensures { TellsNamedType (module_terms types.now) name.now result }
{
    let meaning = types.meaning(name.module_name.text.as_slice(), name.name.text.as_slice());
    match meaning {
        Meaning::TypeAt(_) => Some(meaning),
        Meaning::ValueAt(_) => None,
        Meaning::Standard(_) => Some(meaning),
        Meaning::Nothing => None,
    }
}

/// The type that an attribute states; missing where it derives from another.
fn stated_type(found: &Found, types: &Types) -> AttributeType
    ensures { (parts : PartTerms) → module_terms types.now ≡ module_terms_of parts →
        TellsStated parts (found_view found.now) result }
{
    let Body::Attribute(attribute) = found.body else {
        return AttributeType::Missing;
    };
    match &attribute.syntax {
        AttributeSyntax::TypeReference(name) => match type_meaning(types, name) {
            Some(meaning) => AttributeType::Of(meaning),
            None => AttributeType::Missing,
        },
        AttributeSyntax::Derived(_) => AttributeType::Missing,
    }
}

/// The type at the end of a chain of attributes, each of which derives from the next. A chain without an end leads
/// round in a circle.
fn chain_type(templates: &[Found], types: &Types, end: Option<usize>) -> AttributeType
    ensures { (parts : PartTerms) → module_terms types.now ≡ module_terms_of parts →
        TellsChain parts templates.now end result }
{
    match end {
        Some(end) => match templates.get(end) {
            Some(found) => stated_type(found, types),
            None => AttributeType::Missing,
        },
        None => AttributeType::Endless,
    }
}

/// Where an attribute leads: to the one from which it derives, else it is the end of its chain.
fn type_link(templates: &[Found], targets: &[Vec<Option<usize>>], number: usize) -> Link
    ensures { (parts : PartTerms) → AreFound parts templates.now → AreTargets parts templates.now targets.now →
        IsTypeLink parts templates.now number result }
{
    match target_in_role(templates, targets, number, Role::BaseAttribute) {
        Some(base) => Link::Next(base),
        None => Link::End,
    }
}

fn type_links(
    alloc: Global,
    templates: &[Found],
    targets: &[Vec<Option<usize>>],
) -> Result<Vec<Link>, AllocError>
    ensures { IfOk result (λ links. (parts : PartTerms) → AreFound parts templates.now →
        AreTargets parts templates.now targets.now → AreTypeLinks parts templates.now links.items) }
{
    let mut links = Vec::new(alloc);
    for number in 0..templates.len() {
        links.push(type_link(templates, targets, number))?;
    }
    Ok(links)
}

/// The types at the ends of chains.
fn chain_types(
    alloc: Global,
    templates: &[Found],
    types: &Types,
    ends: &[Option<usize>],
) -> Result<Vec<AttributeType>, AllocError>
    ensures { IfOk result (λ answers. (parts : PartTerms) → module_terms types.now ≡ module_terms_of parts →
        AreEach (TellsChain parts templates.now) ends.now answers.items) }
{
    let mut answers = Vec::new(alloc);
    for end in ends.iter() {
        answers.push(chain_type(templates, types, *end))?;
    }
    Ok(answers)
}

/// The type of each attribute, by the number of its template; that of another template is missing.
pub fn attribute_types(
    alloc: Global,
    templates: &[Found],
    targets: &[Vec<Option<usize>>],
    types: &Types,
) -> Result<Vec<AttributeType>, AllocError>
    ensures { IfOk result (λ answers. (parts : PartTerms) → AreFound parts templates.now →
        AreTargets parts templates.now targets.now → module_terms types.now ≡ module_terms_of parts →
        AreAttributeTypes parts templates.now answers.items) }
{
    let links = type_links(alloc, templates, targets)?;
    let ends = chain_ends(alloc, &links)?;
    chain_types(alloc, templates, types, &ends)
}
