//! The objects in scope with their names, by one look for those at and below the base: X.711, section 7.5, type Scope.

ghost use Rattle.std.specs.Prelude.{◌≡◌, ◌++◌, ◌∷◌, ◌<◌, ◌≤◌, [], IfOk, OnOk, if◌then◌else◌, length, true};
ghost use Rattle.term_model.specs.NamedObjects.{IsByName};
ghost use Rattle.term_model.specs.Scope.{is_within, level_below};
ghost use Rattle.term_model.specs.StepCounts.{IsOneCall};
ghost use Rattle.scope_select.specs.Ranges.{EndsAtBase, IsBaseAlone, begins};
ghost use Rattle.scope_select.specs.Subtrees.{AllBegun, IsOneLook, IsOneSubtree, entries_in_scope, referred};

use crate::levels::{ends_at_base, has_level};
use crate::refusal::ScopeRefusal;
use crate::subtrees::Subtrees;
use std::alloc::Global;
use term_model::{Name, NamedObject, Scope, StepLedger, Steps};

/// How many levels a name that the base begins is below it.
fn level_of(base: &Name, name: &Name) -> usize
    ensures { begins base.now name.now ≡ true → level_below base.now name.now ≡ Some result }
{
    let named = name.parts.as_slice().len();
    named.saturating_sub(base.parts.as_slice().len())
}

/// Whether the scope reaches an object whose name the base begins.
fn is_reached(base: &Name, scope: &Scope, entry: &NamedObject) -> bool
    ensures { begins base.now entry.now.name ≡ true → result ≡ is_within base.now scope.now entry.now.name }
{
    has_level(scope, level_of(base, &entry.name))
}

/// Adds an object whose name the base begins, where the scope reaches it.
fn add_entry<'a>(
    base: &Name,
    scope: &Scope,
    limit: u64,
    entry: &'a NamedObject,
    reached: &mut Vec<&'a NamedObject>,
) -> Result<(), ScopeRefusal>
    requires begun { begins base.now entry.now.name ≡ true }
    requires some { length (referred reached.old.items) ≤ limit }
    ensures added { OnOk result (referred reached.new.items ≡ referred reached.old.items
        ++ (if is_within base.now scope.now entry.now.name then entry.now ∷ [] else [])) }
    ensures few { OnOk result (length (referred reached.new.items) ≤ limit) }
    ensures many { result ≡ Err ScopeRefusal.TooMany
        → ((is_within base.now scope.now entry.now.name ≡ true) × (length (referred reached.old.items) ≡ limit)) }
{
    if is_reached(base, scope, entry) {
        if reached.as_slice().len() as u64 >= limit {
            return Err(ScopeRefusal::TooMany);
        }
        reached.push(entry)?;
    }
    Ok(())
}

/// Those of a subtree that the scope reaches.
fn reached_among<'a>(
    alloc: Global,
    base: &Name,
    scope: &Scope,
    limit: u64,
    entries: &[&'a NamedObject],
) -> Result<Vec<&'a NamedObject>, ScopeRefusal>
    requires begun { AllBegun base.now (referred entries.now) }
    ensures entries { IfOk result (λ reached. referred reached.items
        ≡ entries_in_scope (referred entries.now) base.now scope.now) }
    ensures few { OnOk result (length (entries_in_scope (referred entries.now) base.now scope.now) ≤ limit) }
    ensures many { result ≡ Err ScopeRefusal.TooMany
        → limit < length (entries_in_scope (referred entries.now) base.now scope.now) }
{
    let mut reached = Vec::new(alloc);
    for entry in entries {
        add_entry(base, scope, limit, *entry, &mut reached)?;
    }
    Ok(reached)
}

/// The base object, where it is there and the scope, which ends there, reaches it.
fn base_alone<'a, L: StepLedger, M: Subtrees<L>>(
    alloc: Global,
    mib: &'a M,
    base: &Name,
    scope: &Scope,
    limit: u64,
    steps: &mut Steps<L>,
) -> Result<Vec<&'a NamedObject>, ScopeRefusal>
    requires ends { EndsAtBase scope.now }
    ensures entries { IfOk result (λ entries. referred entries.items
        ≡ entries_in_scope (M.objects mib.now) base.now scope.now) }
    ensures rising { IsByName (M.objects mib.now) }
    ensures few { OnOk result (length (entries_in_scope (M.objects mib.now) base.now scope.now) ≤ limit) }
    ensures many { result ≡ Err ScopeRefusal.TooMany
        → limit < length (entries_in_scope (M.objects mib.now) base.now scope.now) }
    ensures visits { IsOneCall (M.objects mib.now) steps.old steps.new }
{
    let mut reached = Vec::new(alloc);
    let Some(entry) = mib.entry(base, steps) else {
        return Ok(reached);
    };
    add_entry(base, scope, limit, entry, &mut reached)?;
    Ok(reached)
}

/// Those of its subtree that the scope reaches.
fn base_and_below<'a, L: StepLedger, M: Subtrees<L>>(
    alloc: Global,
    mib: &'a M,
    base: &Name,
    scope: &Scope,
    limit: u64,
    steps: &mut Steps<L>,
) -> Result<Vec<&'a NamedObject>, ScopeRefusal>
    ensures entries { IfOk result (λ entries. referred entries.items
        ≡ entries_in_scope (M.objects mib.now) base.now scope.now) }
    ensures rising { IsByName (M.objects mib.now) }
    ensures few { OnOk result (length (entries_in_scope (M.objects mib.now) base.now scope.now) ≤ limit) }
    ensures many { result ≡ Err ScopeRefusal.TooMany
        → limit < length (entries_in_scope (M.objects mib.now) base.now scope.now) }
    ensures visits { IsOneSubtree (M.objects mib.now) base.now steps.old steps.new }
{
    let entries = mib.subtree(alloc, base, steps)?;
    reached_among(alloc, base, scope, limit, entries.as_slice())
}

/// The objects in scope with their names, by the order of names: X.711, type Scope. `TooMany` comes exactly where more
/// than `limit` objects are in scope, `Memory` where there is none for the references. The base need not be there; each
/// look into the map is counted on `steps`, also before a refusal.
pub fn entries_in_scope<'a, L: StepLedger, M: Subtrees<L>>(
    alloc: Global,
    mib: &'a M,
    base: &Name,
    scope: &Scope,
    limit: u64,
    steps: &mut Steps<L>,
) -> Result<Vec<&'a NamedObject>, ScopeRefusal>
    // the objects in scope by the order of their names, which rise
    ensures entries { IfOk result (λ entries. referred entries.items
        ≡ entries_in_scope (M.objects mib.now) base.now scope.now) }
    ensures rising { IsByName (M.objects mib.now) }

    // refused exactly where there are more than the limit
    ensures few { OnOk result (length (entries_in_scope (M.objects mib.now) base.now scope.now) ≤ limit) }
    ensures many { result ≡ Err ScopeRefusal.TooMany
        → limit < length (entries_in_scope (M.objects mib.now) base.now scope.now) }

    // whatever the rest of the map has
    ensures visits { IsOneLook (M.objects mib.now) base.now steps.old steps.new }
    ensures alone { IsBaseAlone (M.objects mib.now) scope.now steps.old steps.new }
{
    if ends_at_base(scope) {
        base_alone(alloc, mib, base, scope, limit, steps)
    } else {
        base_and_below(alloc, mib, base, scope, limit, steps)
    }
}
