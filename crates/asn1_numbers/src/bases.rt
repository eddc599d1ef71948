//! What is left of the types of assignments beneath their names and tags, and which named numbers it has (X.680,
//! sections 17, 19, 20 and 31).

ghost use Rattle.std.specs.Prelude.{◌≡◌, IfOk, List, option_map};
ghost use Rattle.asn1_names.specs.CodeMeanings.{named_module, named_type};
ghost use Rattle.asn1_names.specs.ModuleTerms.{LimitTerm};
ghost use Rattle.asn1_names.specs.ModuleTerms.TypeTerm.{Reference};
ghost use Rattle.asn1_names.specs.NumbersFound.{beneath_tags};
ghost use Rattle.asn1_names.specs.TermViews.{bound_term, module_terms, type_term};
ghost use Rattle.asn1_numbers.specs.NumberedBases.{AreBases, AreMaps, IsBaseLink, IsMapOf, LinksType};
ghost use Rattle.asn1_numbers.specs.NumberedBases.{held_in, numbers_at};

use asn1_names::name_tables::{Meaning, NameTables};
use asn1_names::named_numbers::{NumberMap, number_map};
use asn1_names::type_walk::{beneath_tags, name_of};
use asn1_syntax::plain_type::TypeName;
use asn1_syntax::type_text::TypeText;
use asn1_values_syntax::numbers::Bound;
use indexmap::IndexMap;
use link_graphs::{Link, chain_ends};
use std::alloc::{AllocError, Global};

/// Where a name leads.
fn name_link(tables: &NameTables, home: usize, name: &TypeName) -> Link
    ensures { (limits : List LimitTerm) → LinksType (module_terms tables.now) home
        (Reference (named_module name.now) (named_type name.now) limits) result }
{
    match tables.reference_meaning(home, name) {
        Meaning::TypeAt(next) => Link::Next(next),
        Meaning::ValueAt(_) => Link::Stop,
        Meaning::Standard(_) => Link::End,
        Meaning::Nothing => Link::Stop,
    }
}

/// Where a type leads beneath its tags.
fn type_link(tables: &NameTables, home: usize, of: &TypeText) -> Link
    ensures { LinksType (module_terms tables.now) home (beneath_tags (type_term of.now)) result }
{
    match name_of(beneath_tags(of)) {
        Some(name) => name_link(tables, home, name),
        None => Link::End,
    }
}

/// Where the type of an assignment leads.
fn base_link(tables: &NameTables, number: usize) -> Link
    ensures { IsBaseLink (module_terms tables.now) number result }
{
    match tables.type_at(number) {
        Some((home, of)) => type_link(tables, home, of),
        None => Link::Stop,
    }
}

/// For each assignment the one whose type has its base beneath its tags.
pub fn bases_of(alloc: Global, tables: &NameTables) -> Result<Vec<Option<usize>>, AllocError>
    ensures { IfOk result (λ bases. AreBases (module_terms tables.now) bases.items) }
{
    let mut links = Vec::new(alloc);
    for number in 0..tables.count() {
        links.push(base_link(tables, number))?;
    }
    chain_ends(alloc, &links)
}

/// The named numbers that the type of an assignment states beneath its tags.
fn map_of<'a>(
    alloc: Global,
    tables: &NameTables<'a>,
    number: usize,
) -> Result<NumberMap<'a>, AllocError>
    ensures { IfOk result (λ table. IsMapOf (module_terms tables.now) number table) }
{
    match tables.type_at(number) {
        Some((_, of)) => number_map(alloc, beneath_tags(of)),
        None => Ok(IndexMap::new(alloc)),
    }
}

/// The same of each assignment.
pub fn maps_of<'a>(alloc: Global, tables: &NameTables<'a>) -> Result<Vec<NumberMap<'a>>, AllocError>
    ensures { IfOk result (λ maps. AreMaps (module_terms tables.now) maps.items) }
{
    let mut maps = Vec::new(alloc);
    for number in 0..tables.count() {
        maps.push(map_of(alloc, tables, number)?)?;
    }
    Ok(maps)
}

/// The bound that a name has in the map of an assignment.
pub fn bound_called<'a>(maps: &[NumberMap<'a>], number: usize, name: &[u8]) -> Option<&'a Bound>
    ensures { option_map (λ bound. bound_term bound.now) result ≡ numbers_at maps.now number name.now }
{
    match maps.get(number) {
        Some(map) => map.get(name).copied(),
        None => None,
    }
}

/// What is held at a place; none past the end.
pub fn held_at(places: &[Option<usize>], at: usize) -> Option<usize>
    ensures { result ≡ held_in places.now at }
{
    match places.get(at) {
        Some(held) => *held,
        None => None,
    }
}
