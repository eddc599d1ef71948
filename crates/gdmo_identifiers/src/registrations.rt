//! Identifiers under which two templates are registered: the later one is a fault (X.722, section 8.2; docs/PROFILE.md,
//! section 12).

ghost use Rattle.std.specs.Prelude.{◌≡◌, ◌++◌, ◌∷◌, [], ℕ, List, Option, IfOk, OnOk, Some, if◌then◌else◌};
ghost use Rattle.std.specs.BTreeMap.{get, is_at};
ghost use Rattle.std.specs.Ordering.{nat_cmp};
ghost use Rattle.gdmo_names.specs.FaultSets.{AnyOf, Notes};
ghost use Rattle.gdmo_identifiers.specs.Registrations.{BehindBy, LaterOf, Registered, TellsFirst, comes_behind};
ghost use Rattle.gdmo_identifiers.specs.Registrations.{first_kept, is_earlier};

use gdmo_names::first_fault::{FaultKind, Faults};
use std::alloc::{AllocError, Global};
use std::collections::BTreeMap;
use token_grammar::Token;

/// Where arcs are registered.
#[derive(Clone, Copy)]
pub struct Registration<'a> {
    /// The number of the list of the arcs.
    pub list: usize,
    /// The number of the document.
    pub document: u32,
    /// The brace with which the identifier begins.
    pub brace: &'a Token,
}

/// Whether one identifier stands before another.
fn stands_earlier(one: Registration, other: Registration) -> bool
    ensures { result ≡ is_earlier one.entry other.entry }
{
    if one.document != other.document {
        return one.document < other.document;
    }
    one.brace.at < other.brace.at
}

/// The first of what was registered before, where something was, and what is registered now.
fn first_of<'a>(before: Option<Registration<'a>>, own: Registration<'a>) -> Registration<'a>
    ensures { result ≡ first_kept before.entry own.entry }
{
    match before {
        Some(first) => {
            if stands_earlier(own, first) {
                own
            } else {
                first
            }
        }
        None => own,
    }
}

/// Keeps the first place at which arcs are registered.
fn keep_first<'a>(
    table: &mut BTreeMap<usize, Registration<'a>>,
    own: Registration<'a>,
) -> Result<(), AllocError>
    ensures { OnOk result ((n : ℕ) → get nat_cmp table.new n ≡ (if is_at (nat_cmp own.entry.list) n
        then Some (first_kept (get nat_cmp table.old own.entry.list) own.entry) else get nat_cmp table.old n)) }
{
    let first = first_of(table.get(&own.list).copied(), own);
    table.insert(own.list, first)?;
    Ok(())
}

/// The same, where something is registered.
fn keep_maybe<'a>(
    table: &mut BTreeMap<usize, Registration<'a>>,
    own: Option<Registration<'a>>,
) -> Result<(), AllocError>
    ensures { OnOk result ((xs : List (Option Registered)) → TellsFirst xs (get nat_cmp table.old) →
        TellsFirst (xs ++ own.entry ∷ []) (get nat_cmp table.new)) }
{
    match own {
        Some(own) => keep_first(table, own),
        None => Ok(()),
    }
}

/// The first place at which each list of arcs is registered.
fn first_places<'a>(
    alloc: Global,
    registered: &[Option<Registration<'a>>],
) -> Result<BTreeMap<usize, Registration<'a>>, AllocError>
    ensures { IfOk result (λ table. TellsFirst registered.now (get nat_cmp table)) }
{
    let mut table = BTreeMap::new(alloc);
    for own in registered.iter() {
        keep_maybe(&mut table, *own)?;
    }
    Ok(table)
}

/// Whether an identifier stands behind the first of the same arcs.
fn comes_behind(first: Option<Registration>, own: Registration) -> bool
    ensures { result ≡ comes_behind first.entry own.entry }
{
    match first {
        Some(first) => stands_earlier(first, own),
        None => false,
    }
}

/// Notes an identifier that stands behind the first of the same arcs.
fn note_later(table: &BTreeMap<usize, Registration>, own: Option<Registration>, faults: &mut Faults)
    ensures { Notes (BehindBy (get nat_cmp table.now) own.entry) faults.old.first faults.new.first }
{
    if let Some(own) = own {
        if comes_behind(table.get(&own.list).copied(), own) {
            faults.note(own.document, own.brace, FaultKind::DoubleIdentifier);
        }
    }
}

/// Notes each identifier for which one of the same arcs stands earlier.
pub fn note_doubles(
    alloc: Global,
    registered: &[Option<Registration>],
    faults: &mut Faults,
) -> Result<(), AllocError>
    ensures { OnOk result (Notes (AnyOf (LaterOf registered.now) registered.now) faults.old.first faults.new.first) }
{
    let table = first_places(alloc, registered)?;
    for own in registered.iter() {
        note_later(&table, *own, faults);
    }
    Ok(())
}
