//! Ranges in their one form: pairs that rise and don't touch (X.680, sections 50 and 51).

ghost use Rattle.std.specs.Prelude.{◌≡◌, ◌≤ℤ◌, ◌<ℤ◌, ◌+ℤ◌, ℤ, pos, IfOk, IsTrue, IsFalse};
ghost use Rattle.term_values.specs.Bounded.{one_allows};
ghost use Rattle.range_sets.specs.RangeSets.{AreRising};
ghost use Rattle.range_sets.specs.RangeSteps.{Joins, IsInOrder};

use std::alloc::{AllocError, Global};

/// Whether a number is left between the greatest number of a range and the least of another one.
fn is_apart(last: i64, least: i64) -> bool
    ensures apart { IsTrue result → (last +ℤ pos 1) <ℤ least }
    ensures touching { IsFalse result → least ≤ℤ (last +ℤ pos 1) }
{
    last < least && last + 1 < least
}

/// Adds a range to rising pairs, all of which begin no later than it.
fn join(joined: &mut Vec<(i64, i64)>, pair: (i64, i64)) -> Result<(), AllocError>
    ensures { IfOk result (λ _. Joins joined.old.items pair joined.new.items) }
{
    let (least, greatest) = pair;
    if least > greatest {
        return Ok(());
    }
    match joined.pop() {
        None => joined.push((least, greatest))?,
        Some((before, last)) => {
            if is_apart(last, least) {
                joined.push((before, last))?;
                joined.push((least, greatest))?;
            } else {
                joined.push((before, last.max(greatest)))?;
            }
        }
    }
    Ok(())
}

/// The pairs by their first numbers.
fn in_order(pairs: Vec<(i64, i64)>) -> Vec<(i64, i64)>
    ensures order { IsInOrder result.items }
    ensures same { (n : ℤ) → one_allows result.items n ≡ one_allows pairs.items n }
{
    let mut sorted = pairs;
    sorted.sort_unstable();
    sorted
}

/// Pairs that rise and don't touch, which hold the numbers that these pairs hold. Only memory can fail.
pub fn rising(alloc: Global, pairs: Vec<(i64, i64)>) -> Result<Vec<(i64, i64)>, AllocError>
    ensures rising { IfOk result (λ left. AreRising left.items) }
    ensures same { IfOk result (λ left. (n : ℤ) → one_allows left.items n ≡ one_allows pairs.items n) }
{
    let sorted = in_order(pairs);
    let mut joined = Vec::new(alloc);
    for pair in sorted.iter() {
        join(&mut joined, *pair)?;
    }
    Ok(joined)
}
