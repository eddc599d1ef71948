//! The place of a name in a sorted list of shared entries.

ghost use Rattle.std.specs.Prelude.{IfOk, OnOk, ℕ, ◌≡◌, ◌+◌, ◌^◌, ◌<◌, ◌≤◌, false, length, slice_get, true};
ghost use Rattle.std.specs.Option.{option_map_or};
ghost use Rattle.std.specs.Ordering.{is_eq};
ghost use Rattle.term_model.specs.NameOrder.{name_cmp};
ghost use Rattle.term_model.specs.NamedObjects.{IsByName, is_named_at};
ghost use Rattle.scope_select.specs.Subtrees.{IsOneSubtree, referred, subtree_of};
ghost use Rattle.mo_list.specs.Entries.{objects_in};
ghost use Rattle.mo_list.specs.Places.{IsCut, IsPlace, is_past};

use scope_select::levels::level_below;
use std::alloc::{AllocError, Global};
use std::cmp::Ordering;
use std::sync::Arc;
use term_model::{Name, NamedObject, StepLedger, Steps};

/// Whether an entry stands in front of one of this name; with those below it, also whether the name begins its.
fn is_past(name: &Name, below: bool, entry: &NamedObject) -> bool
    ensures { result ≡ is_past below name.now entry.now.name }
{
    if name.cmp(&entry.name) == Ordering::Greater {
        return true;
    }
    below && level_below(name.parts.as_slice(), entry.name.parts.as_slice()).is_some()
}

/// How many entries stand in front of one of this name, with `below` also of the entries whose names it begins: by
/// halves; each entry that is looked at is a visit.
fn cut_at<L: StepLedger>(
    entries: &[Arc<NamedObject>],
    name: &Name,
    below: bool,
    steps: &mut Steps<L>,
) -> usize
    requires { IsByName (objects_in entries.now) }
    ensures cut { IsCut (is_past below name.now) (objects_in entries.now) result }
    ensures rises { steps.old ≤ steps.new }
    ensures some { 0 < length entries.now → steps.old < steps.new }
    ensures few { (digits : ℕ) → length entries.now < 2 ^ digits → steps.new ≤ steps.old + digits }
{
    let mut low = 0;
    let mut high = entries.len();
    'search: while low < high {
        let middle = low + (high - low) / 2;
        steps.visit();
        if is_past(name, below, &entries[middle]) {
            low = middle + 1;
        } else {
            high = middle;
        }
    }
    low
}

/// How many entries stand in front of one of this name, by halves; each entry that is looked at is a visit.
pub fn place_of<L: StepLedger>(
    entries: &[Arc<NamedObject>],
    name: &Name,
    steps: &mut Steps<L>,
) -> usize
    requires { IsByName (objects_in entries.now) }
    ensures place { IsPlace (objects_in entries.now) name.now result }
    ensures rises { steps.old ≤ steps.new }
    ensures some { 0 < length entries.now → steps.old < steps.new }
    ensures few { (digits : ℕ) → length entries.now < 2 ^ digits → steps.new ≤ steps.old + digits }
{
    cut_at(entries, name, false, steps)
}

/// How many entries stand in front of one of this name or have names that it begins, in the same way.
pub fn end_of<L: StepLedger>(
    entries: &[Arc<NamedObject>],
    name: &Name,
    steps: &mut Steps<L>,
) -> usize
    requires { IsByName (objects_in entries.now) }
    ensures end { IsCut (is_past true name.now) (objects_in entries.now) result }
    ensures rises { steps.old ≤ steps.new }
    ensures few { (digits : ℕ) → length entries.now < 2 ^ digits → steps.new ≤ steps.old + digits }
{
    cut_at(entries, name, true, steps)
}

/// Whether there is an entry at an index, and has this name. An entry that is looked at is a visit.
pub fn has_name_at<L: StepLedger>(
    entries: &[Arc<NamedObject>],
    at: usize,
    name: &Name,
    steps: &mut Steps<L>,
) -> bool
    ensures named { result ≡ is_named_at (objects_in entries.now) at name.now }
    ensures rises { steps.old ≤ steps.new }
    ensures few { steps.new ≤ steps.old + 1 }
{
    let Some(entry) = entries.get(at) else {
        return false;
    };
    steps.visit();
    name.cmp(&entry.name) == Ordering::Equal
}

/// The entries whose names the base begins: those between two places. Each that is handed out is a visit.
pub fn subtree_in<'a, L: StepLedger>(
    alloc: Global,
    entries: &'a [Arc<NamedObject>],
    base: &Name,
    steps: &mut Steps<L>,
) -> Result<Vec<&'a NamedObject>, AllocError>
    requires { IsByName (objects_in entries.now) }
    ensures found { IfOk result (λ found. referred found.items ≡ subtree_of (objects_in entries.now) base.now) }
    ensures visits { IsOneSubtree (objects_in entries.now) base.now steps.old steps.new }
    ensures each { OnOk result (steps.old + length (subtree_of (objects_in entries.now) base.now) ≤ steps.new) }
{
    let first = place_of(entries, base, steps);
    let end = end_of(entries, base, steps);
    let mut found = Vec::new(alloc);
    for at in first..end {
        steps.visit();
        let entry: &NamedObject = &entries[at];
        found.push(entry)?;
    }
    Ok(found)
}
