//! The names in scope, by one way through those that the base begins: X.711, section 7.5, type Scope.

ghost use Rattle.std.specs.Prelude.{◌≡◌, ◌++◌, ◌∷◌, ◌<◌, ◌≤◌, [], IfOk, MatchOption, OnOk, if◌then◌else◌, length, true};
ghost use Rattle.term_model.specs.NamedObjects.{names};
ghost use Rattle.term_model.specs.Scope.{has_level, names_in_scope};
ghost use Rattle.term_model.specs.StepCounts.{IsOneCall};
ghost use Rattle.scope_select.specs.Ranges.{IsBaseAlone, IsLast, IsNext, IsOneWay};

use crate::levels::{ends_at_base, has_level, level_below};
use crate::refusal::ScopeRefusal;
use std::alloc::Global;
use term_model::ranged::Ranged;
use term_model::{Name, Names, Scope, StepLedger, Steps};

/// Adds a name of this level, where the scope reaches it.
fn add_reached(
    alloc: Global,
    names: &mut Names,
    name: &Name,
    level: usize,
    scope: &Scope,
    limit: u64,
) -> Result<(), ScopeRefusal>
    requires { length names.old ≤ limit }
    ensures added { OnOk result (names.new ≡ names.old ++ (if has_level scope.now level then name.now ∷ [] else [])) }
    ensures few { OnOk result (length names.new ≤ limit) }
    ensures many { result ≡ Err ScopeRefusal.TooMany
        → ((has_level scope.now level ≡ true) × (length names.old ≡ limit)) }
{
    if has_level(scope, level) {
        if names.items.as_slice().len() as u64 >= limit {
            return Err(ScopeRefusal::TooMany);
        }
        names.items.push(name.copy(alloc)?)?;
    }
    Ok(())
}

/// The next name behind this one, with its level, where the base begins it.
fn next_below<'a, L: StepLedger, M: Ranged<L>>(
    mib: &'a M,
    base: &Name,
    here: &Name,
    steps: &mut Steps<L>,
) -> Option<(&'a Name, usize)>
    ensures found { MatchOption result (IsLast base.now here.now (names (M.objects mib.now)))
        (λ next. IsNext base.now here.now (names (M.objects mib.now)) next.0.now next.1) }
    ensures visits { IsOneCall (M.objects mib.now) steps.old steps.new }
{
    match mib.after(here, steps) {
        None => None,
        Some((next, _)) => match level_below(base.parts.as_slice(), next.parts.as_slice()) {
            None => None,
            Some(level) => Some((next, level)),
        },
    }
}

/// The names in scope by the order of names: X.711, type Scope. `TooMany` comes exactly where more than `limit` names
/// are in scope, `Memory` where there is none for the names. The base need not be there; each look into the map is
/// counted on `steps`, also before a refusal.
pub fn in_scope<L: StepLedger, M: Ranged<L>>(
    alloc: Global,
    mib: &M,
    base: &Name,
    scope: &Scope,
    limit: u64,
    steps: &mut Steps<L>,
) -> Result<Names, ScopeRefusal>
    // the names in scope by their order
    ensures names { IfOk result (λ names. names ≡ names_in_scope (M.objects mib.now) base.now scope.now) }

    // refused exactly where there are more than the limit
    ensures few { OnOk result (length (names_in_scope (M.objects mib.now) base.now scope.now) ≤ limit) }
    ensures many { result ≡ Err ScopeRefusal.TooMany
        → limit < length (names_in_scope (M.objects mib.now) base.now scope.now) }

    // whatever the rest of the map has
    ensures visits { IsOneWay (M.objects mib.now) base.now steps.old steps.new }
    ensures alone { IsBaseAlone (M.objects mib.now) scope.now steps.old steps.new }
{
    let mut reached = Names {
        items: Vec::new(alloc),
    };
    if mib.at(base, steps).is_some() {
        add_reached(alloc, &mut reached, base, 0, scope, limit)?;
    }
    if ends_at_base(scope) {
        return Ok(reached);
    }
    let mut here = base;
    while let Some((next, level)) = next_below(mib, base, here, steps) {
        add_reached(alloc, &mut reached, next, level, scope, limit)?;
        here = next;
    }
    Ok(reached)
}
