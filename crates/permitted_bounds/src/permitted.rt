//! Whether the ranges of a whole number, or the sizes, of a syntax and of the types that permit its values have something
//! in common (X.680, sections 49 to 51; docs/PROFILE.md, section 18).

ghost use Rattle.std.specs.Prelude.{◌≡◌, ◌&&◌, ◌++◌, ◌∷◌, [], ℤ, List, None, Some};
ghost use Rattle.std.specs.Prelude.{FitsSigned, IfOk, IsFalse, IsTrue, MatchOption, false, true};
ghost use Rattle.std.specs.Int.{w64};
ghost use Rattle.term_model.specs.WholeRecords.{IsNotEmpty, form_bounds};
ghost use Rattle.term_values.specs.Bounded.{allowed};
ghost use Rattle.term_values.specs.MatchingKinds.{beneath_tags};
ghost use Rattle.term_values.specs.Syntaxes.{TypeSyntax};
ghost use Rattle.permitted_bounds.specs.FormNumbers.{number_of};
ghost use Rattle.permitted_bounds.specs.LeftBounds.{IsLeft, has_form, is_within};

use crate::forms::{BoundedForm, form_bounds};
use range_sets::leave_both;
use std::alloc::{AllocError, Global};
use term_values::{Ranges, Syntax};

/// The numbers that values of a form can have: all, or those that are sizes.
fn all_of(alloc: Global, form: BoundedForm) -> Result<Ranges, AllocError>
    ensures { IfOk result (λ bounds. (n : ℤ) → FitsSigned w64 n → allowed bounds n ≡ has_form (number_of form) n) }
{
    let mut items = Vec::new(alloc);
    if form != BoundedForm::Whole {
        items.push((0, i64::MAX))?;
    }
    Ok(Ranges { items })
}

/// What bounds and those of a further type both hold; a type of another form bounds nothing.
fn bounded_by(
    alloc: Global,
    bounds: Ranges,
    form: BoundedForm,
    further: &Syntax,
) -> Result<Ranges, AllocError>
    ensures { IfOk result (λ left. (n : ℤ)
        → allowed left n ≡ (allowed bounds n && is_within (number_of form) n further.now)) }
{
    match form_bounds(further) {
        Some((other, ranges)) => {
            if other == form {
                leave_both(alloc, bounds, ranges.copy(alloc)?)
            } else {
                Ok(bounds)
            }
        }
        None => Ok(bounds),
    }
}

/// A number of 64 bits that bounds allow, where there is one.
fn some_allowed(bounds: &Ranges) -> Option<i64>
    ensures { MatchOption result ((n : ℤ) → allowed bounds.now n ≡ false) (λ n. allowed bounds.now n ≡ true) }
{
    let pairs = bounds.items.as_slice();
    if pairs.is_empty() {
        return Some(0);
    }
    for pair in pairs {
        if pair.0 <= pair.1 {
            return Some(pair.0);
        }
    }
    None
}

/// What of a syntax is still permitted: its bounds, of which each further type takes some away.
#[derive(Drop)]
pub struct Permitted {
    form: BoundedForm,
    bounds: Ranges,
}

impl Permitted {
    /// What a syntax allows; none where it has no ranges and no sizes.
    pub fn of(alloc: Global, syntax: &Syntax) -> Result<Option<Permitted>, AllocError>
        ensures { IfOk result (λ permitted. MatchOption permitted (form_bounds (beneath_tags syntax.now) ≡ None)
            (λ own. IsLeft syntax.now [] own)) }
    {
        let Some((form, ranges)) = form_bounds(syntax) else {
            return Ok(None);
        };
        let bounds = leave_both(alloc, all_of(alloc, form)?, ranges.copy(alloc)?)?;
        Ok(Some(Permitted { form, bounds }))
    }

    /// What a further type leaves.
    pub fn narrowed(self, alloc: Global, further: &Syntax) -> Result<Permitted, AllocError>
        ensures { IfOk result (λ left. (syntax : TypeSyntax) (types : List TypeSyntax) → IsLeft syntax types self
            → IsLeft syntax (types ++ further.now ∷ []) left) }
    {
        let form = self.form;
        let bounds = bounded_by(alloc, self.bounds, form, further)?;
        Ok(Permitted { form, bounds })
    }

    /// Whether nothing is permitted.
    pub fn is_empty(&self) -> bool
        ensures empty { IsTrue result → (syntax : TypeSyntax) (types : List TypeSyntax) → IsLeft syntax types self.now
            → ¬ IsNotEmpty syntax types }
        ensures some { IsFalse result → (syntax : TypeSyntax) (types : List TypeSyntax) → IsLeft syntax types self.now
            → IsNotEmpty syntax types }
    {
        match some_allowed(&self.bounds) {
            Some(_) => false,
            None => true,
        }
    }
}
