//! Which numbers the values are that modules assign (X.680, sections 16, 19 and 20).

ghost use Rattle.std.specs.Prelude.{◌≡◌, ℕ, IfOk, List, MatchOption, None, Some, map};
ghost use Rattle.asn1_names.specs.CodeMeanings.{IsTypeOf};
ghost use Rattle.asn1_names.specs.ModuleTerms.{ModuleTerm, NumberTerm, TypeTerm};
ghost use Rattle.asn1_names.specs.ModuleTerms.NumberTerm.{Called, Digits};
ghost use Rattle.asn1_names.specs.TermViews.{bound_term, module_terms, signed_term, value_number};
ghost use Rattle.asn1_names.specs.TypeBase.{HasNamedNumber};
ghost use Rattle.asn1_numbers.specs.NumberedBases.{AreBases, AreMaps, held_in};
ghost use Rattle.asn1_numbers.specs.NumberedValues.{AreValues, AssignsStated, IsValueLink, LinksNumber, TellsSaid};
ghost use Rattle.asn1_numbers.specs.NumberedValues.{value_at_end};

use crate::bases::{bound_called, held_at};
use asn1_names::name_tables::{Meaning, NameTables};
use asn1_names::named_numbers::NumberMap;
use asn1_names::numerals::digits_number;
use asn1_syntax::ValueText;
use asn1_syntax::module::Assigned;
use asn1_values_syntax::numbers::{Bound, SignedNumber};
use asn1_values_syntax::value::NamedValue;
use link_graphs::{Link, chain_ends};
use std::alloc::{AllocError, Global};
use token_grammar::Token;

/// The number of digits.
fn signed_number(digits: &SignedNumber) -> Option<i64>
    ensures { (ms : List ModuleTerm) (m : ℕ) → TellsSaid ms m (signed_term digits.now) result }
{
    digits_number(digits.minus.is_some(), &digits.number)
}

/// Where the name of a value leads that stands for a number.
fn called_link(tables: &NameTables, home: usize, name: &Token) -> (Link, Option<i64>)
    ensures { LinksNumber (module_terms tables.now) home (Called name.now) result.0 result.1 }
{
    match tables.name_meaning(home, name.text.as_slice()) {
        Meaning::ValueAt(next) => (Link::Next(next), None),
        Meaning::TypeAt(_) => (Link::Stop, None),
        Meaning::Standard(_) => (Link::Stop, None),
        Meaning::Nothing => (Link::Stop, None),
    }
}

/// Where the number of a named number leads.
fn bound_link(tables: &NameTables, home: usize, bound: &Bound) -> (Link, Option<i64>)
    ensures { LinksNumber (module_terms tables.now) home (bound_term bound.now) result.0 result.1 }
{
    match bound {
        Bound::Number(digits) => (Link::End, signed_number(digits)),
        Bound::Name(name) => called_link(tables, home, name),
    }
}

/// The named number of this name that the type of an assignment has, and the place of the module in which it stands.
fn named_bound<'a>(
    tables: &NameTables,
    bases: &[Option<usize>],
    maps: &[NumberMap<'a>],
    number: usize,
    name: &Token,
) -> Option<(usize, &'a Bound)>
    requires bases { AreBases (module_terms tables.now) bases.now }
    requires maps { AreMaps (module_terms tables.now) maps.now }
    ensures { (m : ℕ) (of : TypeTerm) → IsTypeOf (module_terms tables.now) number m of →
        MatchOption result
        ((w : ℕ) (said : NumberTerm) → ¬ HasNamedNumber (module_terms tables.now) m of name.now w said)
        (λ found. HasNamedNumber (module_terms tables.now) m of name.now found.0 (bound_term found.1.now)) }
{
    let Some(base) = held_at(bases, number) else {
        return None;
    };
    let Some((home, _)) = tables.type_at(base) else {
        return None;
    };
    match bound_called(maps, base, name.text.as_slice()) {
        Some(bound) => Some((home, bound)),
        None => None,
    }
}

/// Where the value of an assignment leads that is a name alone, and its number where it is an end.
fn named_value_link(
    tables: &NameTables,
    bases: &[Option<usize>],
    maps: &[NumberMap],
    number: usize,
    name: &Token,
) -> (Link, Option<i64>)
    requires bases { AreBases (module_terms tables.now) bases.now }
    requires maps { AreMaps (module_terms tables.now) maps.now }
    ensures { (m : ℕ) (of : TypeTerm) → AssignsStated (module_terms tables.now) number m of (Some (Called name.now)) →
        IsValueLink (module_terms tables.now) number result.0 result.1 }
{
    match named_bound(tables, bases, maps, number, name) {
        Some((home, bound)) => bound_link(tables, home, bound),
        None => (Link::Stop, None),
    }
}

/// Where the value of an assignment leads by its text.
fn text_link(
    tables: &NameTables,
    bases: &[Option<usize>],
    maps: &[NumberMap],
    number: usize,
    value: &ValueText,
) -> (Link, Option<i64>)
    requires bases { AreBases (module_terms tables.now) bases.now }
    requires maps { AreMaps (module_terms tables.now) maps.now }
    ensures { (m : ℕ) (of : TypeTerm) → AssignsStated (module_terms tables.now) number m of (value_number value.now) →
        IsValueLink (module_terms tables.now) number result.0 result.1 }
{
    match value {
        ValueText::Number(digits) => (Link::End, signed_number(digits)),
        ValueText::Named(named) => match named {
            NamedValue::Name(name) => named_value_link(tables, bases, maps, number, name),
            NamedValue::Choice { .. } => (Link::Stop, None),
        },
        ValueText::Literal(_) => (Link::Stop, None),
        ValueText::Braces { .. } => (Link::Stop, None),
    }
}

/// Where the value of an assignment leads, and its number where it is an end.
fn value_link(
    tables: &NameTables,
    bases: &[Option<usize>],
    maps: &[NumberMap],
    number: usize,
) -> (Link, Option<i64>)
    requires bases { AreBases (module_terms tables.now) bases.now }
    requires maps { AreMaps (module_terms tables.now) maps.now }
    ensures { IsValueLink (module_terms tables.now) number result.0 result.1 }
{
    match tables.assignment(number) {
        Some((_, assignment)) => match &assignment.assigned {
            Assigned::OfValue { value, .. } => text_link(tables, bases, maps, number, value),
            Assigned::OfType(_) => (Link::Stop, None),
        },
        None => (Link::Stop, None),
    }
}

/// The numbers at the ends to which assignments lead.
fn values_at_ends(
    alloc: Global,
    ends: &[Option<usize>],
    own: &[Option<i64>],
) -> Result<Vec<Option<i64>>, AllocError>
    ensures { IfOk result (λ values. values.items ≡ map (value_at_end own.now) ends.now) }
{
    let mut values = Vec::new(alloc);
    for end in ends.iter() {
        values.push(match end {
            Some(end) => number_at(own, *end),
            None => None,
        })?;
    }
    Ok(values)
}

/// The number of each assignment that is a value and has one.
pub fn values_of(
    alloc: Global,
    tables: &NameTables,
    bases: &[Option<usize>],
    maps: &[NumberMap],
) -> Result<Vec<Option<i64>>, AllocError>
    requires bases { AreBases (module_terms tables.now) bases.now }
    requires maps { AreMaps (module_terms tables.now) maps.now }
    ensures { IfOk result (λ values. AreValues (module_terms tables.now) values.items) }
{
    let mut links = Vec::new(alloc);
    let mut own = Vec::new(alloc);
    for number in 0..tables.count() {
        let (link, stated) = value_link(tables, bases, maps, number);
        links.push(link)?;
        own.push(stated)?;
    }
    let ends = chain_ends(alloc, &links)?;
    values_at_ends(alloc, &ends, &own)
}

/// The number that is held at a place; none past the end.
pub fn number_at(places: &[Option<i64>], at: usize) -> Option<i64>
    ensures { result ≡ held_in places.now at }
{
    match places.get(at) {
        Some(held) => *held,
        None => None,
    }
}
