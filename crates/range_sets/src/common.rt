//! What two lists of ranges both hold (X.680, section 50).

ghost use Rattle.std.specs.Prelude.{◌≡◌, ◌++◌, ◌&&◌, ℤ, IfOk};
ghost use Rattle.term_values.specs.Bounded.{one_allows};
ghost use Rattle.range_sets.specs.RangeSets.{AreRising};
ghost use Rattle.range_sets.specs.RangeSteps.{common_pair};

use std::alloc::{AllocError, Global};

/// Appends what two ranges both hold, where they do.
fn push_common(both: &mut Vec<(i64, i64)>, x: (i64, i64), y: (i64, i64)) -> Result<(), AllocError>
    ensures { IfOk result (λ _. both.new.items ≡ both.old.items ++ common_pair x y) }
{
    let least = x.0.max(y.0);
    let greatest = x.1.min(y.1);
    if least <= greatest {
        both.push((least, greatest))?;
    }
    Ok(())
}

/// Rising pairs that hold what two lists of rising pairs both hold. Only memory can fail.
pub fn common(
    alloc: Global,
    xs: &[(i64, i64)],
    ys: &[(i64, i64)],
) -> Result<Vec<(i64, i64)>, AllocError>
    ensures rising { IfOk result (λ both. AreRising xs.now → AreRising ys.now → AreRising both.items) }
    ensures same { IfOk result (λ both. AreRising xs.now → AreRising ys.now → (n : ℤ) →
        one_allows both.items n ≡ (one_allows xs.now n && one_allows ys.now n)) }
{
    let mut both = Vec::new(alloc);
    let mut i = 0usize;
    let mut j = 0usize;
    while i < xs.len() && j < ys.len() {
        let x = xs[i];
        let y = ys[j];
        push_common(&mut both, x, y)?;
        if x.1 < y.1 {
            i += 1;
        } else {
            j += 1;
        }
    }
    Ok(both)
}
