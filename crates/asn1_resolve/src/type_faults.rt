//! What is wrong in a type and in those in its text (X.680, section 17; docs/PROFILE.md, section 11).

ghost use Rattle.std.specs.Prelude.{◌≡◌, IfOk, IsTrue};
ghost use Rattle.asn1_names.specs.TermViews.{module_terms, type_term};
ghost use Rattle.asn1_resolve.specs.FaultSets.{In, IsFirstOf};
ghost use Rattle.asn1_resolve.specs.TypeFaults.{HeadFaults, IsFew, OwnFaults, TagsFaults, TypeFaults};

use crate::constraint_faults::judge_constraints;
use crate::faults::{Home, earlier, fault_at};
use crate::number_faults::{judge_plain, judge_tag};
use asn1_names::first_fault::{FaultKind, ModuleFault};
use asn1_names::first_words::first_word;
use asn1_numbers::number_tables::Numbers;
use asn1_syntax::type_text::{StructureText, TypeText};
use asn1_tags::type_facts::TypeFacts;
use std::alloc::{AllocError, Global};

/// The fault of tags that don't decide in a type itself, where tags are told.
fn judge_tags(
    alloc: Global,
    facts: &TypeFacts,
    home: Home,
    told: bool,
    of: &TypeText,
) -> Result<Option<ModuleFault>, AllocError>
    ensures { (IsTrue told → IsFew (module_terms facts.now) home.module (type_term of.now)) →
        IfOk result (λ first. IsFirstOf (In home.document
        (TagsFaults (IsTrue told) (module_terms facts.now) home.module (type_term of.now))) first) }
{
    if !told {
        return Ok(None);
    }
    if facts.is_ambiguous(alloc, home.module, of)? {
        return Ok(Some(fault_at(home, first_word(of), FaultKind::AmbiguousTags)));
    }
    Ok(None)
}

/// The first fault of a type itself, apart from its constraints and of what tags decide.
fn judge_head(numbers: &Numbers, home: Home, of: &TypeText) -> Option<ModuleFault>
    ensures { IsFirstOf (In home.document
        (HeadFaults (module_terms numbers.now) home.module (type_term of.now))) result }
{
    match of {
        TypeText::Tagged { tag, .. } => judge_tag(numbers, home, tag),
        TypeText::Structured { content, .. } => match content {
            StructureText::Components { .. } => None,
            StructureText::ListOf { .. } => None,
        },
        TypeText::Choice { .. } => None,
        TypeText::Plain { of: plain, .. } => judge_plain(numbers, home, plain),
    }
}

/// The first fault of a type itself.
fn judge_own<'a>(
    alloc: Global,
    facts: &TypeFacts<'a>,
    home: Home,
    told: bool,
    of: &'a TypeText,
) -> Result<Option<ModuleFault>, AllocError>
    ensures { (IsTrue told → IsFew (module_terms facts.now) home.module (type_term of.now)) →
        IfOk result (λ first. IsFirstOf (In home.document
        (OwnFaults (IsTrue told) (module_terms facts.now) home.module (type_term of.now))) first) }
{
    let tags = judge_tags(alloc, facts, home, told, of)?;
    let constraints = judge_constraints(alloc, facts.numbers(), home, of)?;
    let head = judge_head(facts.numbers(), home, of);
    Ok(earlier(earlier(tags, constraints), head))
}

/// The first fault of a type and of those in its text; of tags where they are told.
pub fn judge_type<'a>(
    alloc: Global,
    facts: &TypeFacts<'a>,
    home: Home,
    told: bool,
    of: &'a TypeText,
) -> Result<Option<ModuleFault>, AllocError>
    ensures { (IsTrue told → IsFew (module_terms facts.now) home.module (type_term of.now)) →
        IfOk result (λ first. IsFirstOf (In home.document
        (TypeFaults (IsTrue told) (module_terms facts.now) home.module (type_term of.now))) first) }
{
    let mut first = judge_own(alloc, facts, home, told, of)?;
    match of {
        TypeText::Tagged { of: inner, .. } => {
            Ok(earlier(first, judge_type(alloc, facts, home, told, inner)?))
        }
        TypeText::Structured { content, .. } => match content {
            StructureText::Components { components, .. } => match components {
                Some(components) => {
                    for component in components.iter() {
                        let within = judge_type(alloc, facts, home, told, &component.of)?;
                        first = earlier(first, within);
                    }
                    Ok(first)
                }
                None => Ok(first),
            },
            StructureText::ListOf { of: element, .. } => {
                Ok(earlier(first, judge_type(alloc, facts, home, told, element)?))
            }
        },
        TypeText::Choice { alternatives, .. } => {
            for alternative in alternatives.iter() {
                let within = judge_type(alloc, facts, home, told, &alternative.of)?;
                first = earlier(first, within);
            }
            Ok(first)
        }
        TypeText::Plain { .. } => Ok(first),
    }
}
