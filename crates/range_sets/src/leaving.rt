//! What ranges leave of bounds (X.680, sections 49 to 51).

ghost use Rattle.std.specs.Prelude.{◌≡◌, ◌&&◌, ℤ, IfOk, IsTrue, IsFalse, false, true};
ghost use Rattle.term_values.specs.Bounded.{allowed, one_allows};
ghost use Rattle.range_sets.specs.RangeSets.{AreRising, IsStated, Leaves};

use crate::common::common;
use crate::rising::rising;
use std::alloc::{AllocError, Global};
use term_values::Ranges;

/// Rising pairs as bounds: where there are none, a pair that holds nothing.
fn stated(pairs: Vec<(i64, i64)>) -> Result<Ranges, AllocError>
    ensures stated { IfOk result (λ bounds. AreRising pairs.items → IsStated bounds) }
    ensures same { IfOk result (λ bounds. (n : ℤ) → allowed bounds n ≡ one_allows pairs.items n) }
{
    let mut items = pairs;
    if items.is_empty() {
        items.push((1, 0))?;
    }
    Ok(Ranges { items })
}

/// What ranges leave of bounds: the numbers that the bounds allow and some range holds, as rising pairs; where none is
/// left, a pair that holds none. Only memory can fail.
pub fn leave(alloc: Global, before: Ranges, ranges: Vec<(i64, i64)>) -> Result<Ranges, AllocError>
    ensures { IfOk result (λ after. Leaves before ranges.items after) }
{
    let kept = rising(alloc, ranges)?;
    if before.items.is_empty() {
        return stated(kept);
    }
    let held = rising(alloc, before.items)?;
    stated(common(alloc, &held, &kept)?)
}

/// The bounds that allow what both bounds allow. Only memory can fail.
pub fn leave_both(alloc: Global, x: Ranges, y: Ranges) -> Result<Ranges, AllocError>
    ensures { IfOk result (λ both. (n : ℤ) → allowed both n ≡ (allowed x n && allowed y n)) }
{
    if y.items.is_empty() {
        return Ok(x);
    }
    leave(alloc, x, y.items)
}

/// Whether bounds allow no number.
pub fn hold_nothing(bounds: &Ranges) -> bool
    ensures nothing { IsTrue result → (n : ℤ) → allowed bounds.now n ≡ false }
    ensures some { IsFalse result → (n : ℤ) × (allowed bounds.now n ≡ true) }
{
    for pair in bounds.items.iter() {
        if pair.0 <= pair.1 {
            return false;
        }
    }
    !bounds.items.is_empty()
}
