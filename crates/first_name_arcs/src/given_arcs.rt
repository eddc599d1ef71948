//! Arcs that are given to first names, of which an earlier module gave the name others (X.680, section 32;
//! docs/PROFILE.md, section 12).

ghost use Rattle.std.specs.Prelude.{◌≡◌, ◌++◌, ◌∷◌, [], ℕ, List, Option, OnOk, Some, if◌then◌else◌};
ghost use Rattle.std.specs.BTreeMap.{get, is_at};
ghost use Rattle.std.specs.Ordering.{nat_cmp};
ghost use Rattle.gdmo_names.specs.FaultSets.{Notes};
ghost use Rattle.gdmo_types.specs.PlaceFaults.{AtPlaces};
ghost use Rattle.first_name_arcs.specs.GivenArcs.{Given, GivenFaults, TellSeen, UnequalAt, UnequalBefore, is_other, seen_after};

use gdmo_names::first_fault::{FaultKind, Faults};
use std::alloc::{AllocError, Global};
use std::collections::BTreeMap;
use token_grammar::Token;

/// A module gives arcs to a first name.
#[derive(Clone, Copy)]
pub struct GivenArcs<'a> {
    /// The number of the assignment by which the first module that defines the name does.
    pub first: usize,
    /// The number of the list of the arcs.
    pub list: usize,
    /// The number of the module's document.
    pub document: u32,
    /// The name, where the module assigns it.
    pub name: &'a Token,
}

/// The arcs that modules so far gave a first name.
#[derive(Clone, Copy)]
pub enum SeenArcs {
    /// The list of this number, each of them.
    One(usize),
    /// Unequal ones.
    Several,
}

/// Whether some module gave other arcs.
fn is_other(seen: Option<SeenArcs>, list: usize) -> bool
    ensures { result ≡ is_other seen list }
{
    match seen {
        None => false,
        Some(SeenArcs::One(first)) => first != list,
        Some(SeenArcs::Several) => true,
    }
}

/// What modules gave once one more gives these arcs.
fn seen_after(seen: Option<SeenArcs>, list: usize) -> SeenArcs
    ensures { result ≡ seen_after seen list }
{
    match seen {
        None => SeenArcs::One(list),
        Some(SeenArcs::One(first)) => {
            if first == list {
                SeenArcs::One(list)
            } else {
                SeenArcs::Several
            }
        }
        Some(SeenArcs::Several) => SeenArcs::Several,
    }
}

/// Keeps what modules gave a first name.
fn keep_seen(
    table: &mut BTreeMap<usize, SeenArcs>,
    own: GivenArcs,
    seen: Option<SeenArcs>,
) -> Result<(), AllocError>
    ensures { OnOk result ((n : ℕ) → get nat_cmp table.new n ≡ (if is_at (nat_cmp own.entry.first) n
        then Some (seen_after seen own.entry.list) else get nat_cmp table.old n)) }
{
    table.insert(own.first, seen_after(seen, own.list))?;
    Ok(())
}

/// Notes arcs of which some module gave others.
fn note_other(seen: Option<SeenArcs>, own: GivenArcs, faults: &mut Faults)
    ensures { Notes (UnequalAt seen own.entry) faults.old.first faults.new.first }
{
    if is_other(seen, own.list) {
        faults.note(own.document, own.name, FaultKind::DoubleLabel);
    }
}

/// Notes the arcs of one module, and keeps that it gave them.
fn note_one(
    table: &mut BTreeMap<usize, SeenArcs>,
    own: GivenArcs,
    faults: &mut Faults,
) -> Result<(), AllocError>
    ensures kept { OnOk result ((n : ℕ) → get nat_cmp table.new n ≡ (if is_at (nat_cmp own.entry.first) n
        then Some (seen_after (get nat_cmp table.old own.entry.first) own.entry.list)
        else get nat_cmp table.old n)) }
    ensures noted { Notes (UnequalAt (get nat_cmp table.old own.entry.first) own.entry) faults.old.first
        faults.new.first }
{
    let seen = table.get(&own.first).copied();
    note_other(seen, own, faults);
    keep_seen(table, own, seen)
}

/// The same, where arcs are given.
fn note_given(
    table: &mut BTreeMap<usize, SeenArcs>,
    own: Option<GivenArcs>,
    faults: &mut Faults,
) -> Result<(), AllocError>
    ensures { OnOk result ((xs : List (Option Given)) → TellSeen xs (get nat_cmp table.old) →
        TellSeen (xs ++ own.entry ∷ []) (get nat_cmp table.new)
        × Notes (GivenFaults xs own.entry) faults.old.first faults.new.first) }
{
    match own {
        Some(own) => note_one(table, own, faults),
        None => Ok(()),
    }
}

/// Notes the arcs of which an earlier module gave the same name others.
pub fn note_unequal_given(
    alloc: Global,
    given: &[Option<GivenArcs>],
    faults: &mut Faults,
) -> Result<(), AllocError>
    ensures { OnOk result (Notes (AtPlaces (UnequalBefore given.now) given.now) faults.old.first faults.new.first) }
{
    let mut table = BTreeMap::new(alloc);
    for own in given.iter() {
        note_given(&mut table, *own, faults)?;
    }
    Ok(())
}
