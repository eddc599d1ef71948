//! Types of attributes, arguments and replies as they are compared (docs/PROFILE.md, section 12).

ghost use Rattle.std.specs.Prelude.{◌≡◌, ◌↔◌, IfOk, List, Some, slice_get, true};
ghost use Rattle.asn1_names.specs.CodeMeanings.{Means};
ghost use Rattle.asn1_names.specs.ModuleTerms.{ModuleTerm};
ghost use Rattle.asn1_names.specs.NameMeaning.{Meaning as Meant};
ghost use Rattle.type_numbers.specs.AskedTypes.{AreNumbers, StayNumbers};
ghost use Rattle.gdmo_names.specs.FoundViews.{found_views};
ghost use Rattle.gdmo_names.specs.PartTerms.{PartTerms, Placed, module_terms_of};
ghost use Rattle.gdmo_types.specs.ComparedTypes.{AreOther, TellsAttribute, TellsMeant, TellsOtherStated};
ghost use Rattle.gdmo_types.specs.ComparedTypes.{TellsOtherTypes, TellsStatedType};
ghost use Rattle.gdmo_types.specs.Linkages.{IsLinkage};

use crate::attribute_types::{AttributeType, type_meaning};
use crate::linkage::Linkage;
use asn1_names::Meaning;
use std::alloc::AllocError;
use token_grammar::qualified_name::QualifiedName;
use type_numbers::numbered_types::TypeNumbers;

/// The type of an attribute, an argument or a reply.
#[derive(Clone, Copy)]
pub enum ComparedType {
    /// It isn't known, since a reference is missing.
    Missing,
    /// There is none: none is stated, or the attribute derives from itself.
    Nothing,
    /// The type with this number.
    Number(usize),
}

/// Whether two types are known to be other ones.
pub fn are_other(one: ComparedType, other: ComparedType) -> bool
    ensures { (result ≡ true) ↔ AreOther one other }
{
    match (one, other) {
        (ComparedType::Missing, _) | (_, ComparedType::Missing) => false,
        (ComparedType::Number(a), ComparedType::Number(b)) => a != b,
        _ => true,
    }
}

/// An attribute's type and one that is stated are told to be other ones exactly where they are. Does nothing.
pub fn other_stated_is_told()
    ensures { TellsOtherStated }
{}

/// The same of two types that are stated. Does nothing.
pub fn other_types_are_told()
    ensures { TellsOtherTypes }
{}

/// The type that is meant.
fn meant_type(numbers: &mut TypeNumbers, meaning: Meaning) -> Result<ComparedType, AllocError>
    ensures told { IfOk result (λ type. (ms : List ModuleTerm) (meant : Meant) → AreNumbers ms numbers.old →
        Means ms meaning meant → TellsMeant ms numbers.new.lists meant type) }
    ensures stays { (ms : List ModuleTerm) → AreNumbers ms numbers.old → StayNumbers ms numbers.old numbers.new }
{
    match numbers.type_number(meaning)? {
        Some(number) => Ok(ComparedType::Number(number)),
        None => Ok(ComparedType::Missing),
    }
}

/// The type of an attribute.
pub fn attribute_type(
    linkage: &Linkage,
    numbers: &mut TypeNumbers,
    attribute: usize,
) -> Result<ComparedType, AllocError>
    // that it isn't known, that it has none, or its number
    ensures told { IfOk result (λ type. (parts : PartTerms) (x : Placed) → IsLinkage parts linkage.now →
        AreNumbers (module_terms_of parts) numbers.old →
        slice_get (found_views linkage.now.templates.now) attribute ≡ Some x →
        TellsAttribute parts numbers.new.lists x type) }

    // what had a number keeps it
    ensures stays { (ms : List ModuleTerm) → AreNumbers ms numbers.old → StayNumbers ms numbers.old numbers.new }
{
    match linkage.attributes.get(attribute) {
        Some(AttributeType::Of(meaning)) => meant_type(numbers, *meaning),
        Some(AttributeType::Endless) => Ok(ComparedType::Nothing),
        Some(AttributeType::Missing) => Ok(ComparedType::Missing),
        None => Ok(ComparedType::Missing),
    }
}

/// The type that a name means.
fn named_type(
    linkage: &Linkage,
    numbers: &mut TypeNumbers,
    name: &QualifiedName,
) -> Result<ComparedType, AllocError>
    ensures told { IfOk result (λ type. (parts : PartTerms) → IsLinkage parts linkage.now →
        AreNumbers (module_terms_of parts) numbers.old →
        TellsStatedType parts numbers.new.lists (Some name.now) type) }
    ensures stays { (ms : List ModuleTerm) → AreNumbers ms numbers.old → StayNumbers ms numbers.old numbers.new }
{
    match type_meaning(linkage.types, name) {
        Some(meaning) => meant_type(numbers, meaning),
        None => Ok(ComparedType::Missing),
    }
}

/// The type of an argument or a reply.
pub fn stated_type(
    linkage: &Linkage,
    numbers: &mut TypeNumbers,
    name: &Option<QualifiedName>,
) -> Result<ComparedType, AllocError>
    // that it isn't there, that none is stated, or its number
    ensures told { IfOk result (λ type. (parts : PartTerms) → IsLinkage parts linkage.now →
        AreNumbers (module_terms_of parts) numbers.old →
        TellsStatedType parts numbers.new.lists name.now type) }

    // what had a number keeps it
    ensures stays { (ms : List ModuleTerm) → AreNumbers ms numbers.old → StayNumbers ms numbers.old numbers.new }
{
    match name {
        Some(name) => named_type(linkage, numbers, name),
        None => Ok(ComparedType::Nothing),
    }
}
