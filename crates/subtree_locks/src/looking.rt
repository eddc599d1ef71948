//! What a look at the table tells of one operation: docs/PROFILE.md, section 20.

ghost use Rattle.std.specs.Prelude.{◌≡◌, ◌<◌, ◌-◌, ◌^◌, ℕ, IfSome, IsSome, MatchOption, None, Some, length, slice_get};
ghost use Rattle.lock_model.specs.LockPath.{depth, goes_with, is_same_lock, is_same_part};
ghost use Rattle.lock_model.specs.Holdings.{bars, bars_other, conflicts};
ghost use Rattle.subtree_locks.specs.declared.grant.Grant.TheVariants as grant;
ghost use Rattle.subtree_locks.specs.declared.lock_table.Row.{Row};
ghost use Rattle.subtree_locks.specs.LockRows.{IsRow, IsTable, holding, path_now, row_of};
ghost use Rattle.subtree_locks.specs.Grants.{BarsNext, IsAnswer, NoneBars};

use crate::grant::Grant;
use crate::lock_table::Row;
use lock_model::{LockName, Mode, Part, Path};
use std::collections::BTreeMap;

/// What an operation that is in the table is answered when it asks for its next lock.
pub(crate) fn look(rows: &BTreeMap<u64, Row>, op: u64) -> Grant
    requires table { IsTable rows.now.entries }
    requires there { IsSome (row_of rows.now.entries op) }
    ensures small { (place : ℕ) → result ≡ grant.Held place → place < 2 ^ 63 }
    ensures answer { (row : Row) → row_of rows.now.entries op ≡ Some row → IsAnswer rows.now.entries op row result }
{
    let Some(row) = rows.get(&op) else {
        return Grant::Full;
    };
    let at = row.held;
    let Some((lock, mode)) = place_at(row, at) else {
        return Grant::Full;
    };
    match barring(rows, op, at, lock, mode) {
        Some(by) => Grant::Blocked { by, at },
        None => Grant::Held(at),
    }
}

/// Another operation than this one that holds on a lock name a mode that doesn't go with the wanted one. The lock name
/// stands at this place of the path.
fn barring(rows: &BTreeMap<u64, Row>, op: u64, at: u64, lock: &LockName, mode: Mode) -> Option<u64>
    requires table { IsTable rows.now.entries }
    requires depth { at ≡ depth lock.now }
    ensures { MatchOption result
        (NoneBars rows.now.entries op (lock.now, mode))
        (λ by. BarsNext rows.now.entries op (lock.now, mode) by) }
{
    for (other, row) in rows {
        let barred = bars_next(*other, row, op, at, lock, mode);
        if barred {
            return Some(*other);
        }
    }
    None
}

/// Whether this is another operation, and holds on a lock name, which stands at this depth, a mode that doesn't go with
/// the wanted one.
fn bars_next(other: u64, row: &Row, op: u64, at: u64, lock: &LockName, mode: Mode) -> bool
    requires row { IsRow row.now }
    requires depth { at ≡ depth lock.now }
    ensures { result ≡ bars_other op (lock.now, mode) (holding other row.now) }
{
    if other == op {
        return false;
    }
    holds_against(row, at, lock, mode)
}

/// Whether an operation holds on a lock name, which stands at this depth, a mode that doesn't go with the wanted one.
fn holds_against(row: &Row, at: u64, lock: &LockName, mode: Mode) -> bool
    requires row { IsRow row.now }
    requires depth { at ≡ depth lock.now }
    ensures { result ≡ bars (lock.now, mode) (holding 0 row.now) }
{
    if row.held <= at {
        return false;
    }
    match place_at(row, at) {
        Some((held, held_mode)) => is_against(held, held_mode, lock, mode),
        None => false,
    }
}

/// Whether a lock that is held stands on a lock name, with a mode that doesn't go with the wanted one.
fn is_against(held: &LockName, held_mode: Mode, lock: &LockName, mode: Mode) -> bool
    ensures { result ≡ conflicts (lock.now, mode) (held.now, held_mode) }
{
    if is_same(held, lock) {
        return !go_together(held_mode, mode);
    }
    false
}

/// The lock name and the mode at a place of a path as it ends now: none behind its last place.
fn place_at(row: &Row, at: u64) -> Option<(&LockName, Mode)>
    ensures small { IfSome result (λ _. at < 2 ^ 63) }
    ensures place { MatchOption result (slice_get (path_now row.now) at ≡ None)
        (λ place. slice_get (path_now row.now) at ≡ Some (place.0.now, place.1)) }
{
    let place = entered_place(&row.path, at)?;
    let Some(end) = row.end else {
        return Some((&place.0, place.1));
    };
    if at < end {
        return Some((&place.0, place.1));
    }
    if at > end {
        return None;
    }
    let last = last_place(&row.path)?;
    Some((&place.0, last.1))
}

/// The lock name and the mode at a place of a path as it was entered: none behind its last place.
fn entered_place(path: &Path, at: u64) -> Option<&(LockName, Mode)>
    ensures small { IfSome result (λ _. at < 2 ^ 63) }
    ensures place { MatchOption result (slice_get path.now at ≡ None)
        (λ place. slice_get path.now at ≡ Some place.now) }
{
    path.places().get(at as usize)
}

/// The last place of a path as it was entered: none where it has no place.
fn last_place(path: &Path) -> Option<&(LockName, Mode)>
    ensures { MatchOption result (length path.now ≡ 0)
        (λ place. slice_get path.now (length path.now - 1) ≡ Some place.now) }
{
    path.places().last()
}

/// Whether a mode that is held goes with one that another operation wants.
fn go_together(held: Mode, wanted: Mode) -> bool
    ensures { result ≡ goes_with held wanted }
{
    match held {
        Mode::IS => match wanted {
            Mode::IS => true,
            Mode::IX => true,
            Mode::S => true,
            Mode::X => false,
        },
        Mode::IX => match wanted {
            Mode::IS => true,
            Mode::IX => true,
            Mode::S => false,
            Mode::X => false,
        },
        Mode::S => match wanted {
            Mode::IS => true,
            Mode::IX => false,
            Mode::S => true,
            Mode::X => false,
        },
        Mode::X => false,
    }
}

/// Whether two lock names are the same.
fn is_same(one: &LockName, other: &LockName) -> bool
    ensures { result ≡ is_same_lock one.now other.now }
{
    one.name == other.name && is_same_extent(one.part, other.part)
}

/// Whether both are of the subtree, or both of the object alone.
fn is_same_extent(one: Part, other: Part) -> bool
    ensures { result ≡ is_same_part one other }
{
    match one {
        Part::Tree => match other {
            Part::Tree => true,
            Part::Own => false,
        },
        Part::Own => match other {
            Part::Tree => false,
            Part::Own => true,
        },
    }
}
