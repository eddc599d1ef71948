//! PERMITTED VALUES: X.722, section 8.4.

ghost use Rattle.std.specs.Prelude.{◌≡◌, IfOk};
ghost use Rattle.term_model.specs.ClassAttributes.{is_permitted};

use std::alloc::{AllocError, Global};
use term_model::Syntaxes;
use term_values::Value;
use value_fits::fits;

/// Whether the value is one of each of these types.
pub fn is_permitted(alloc: Global, permitted: &Syntaxes, value: &Value) -> Result<bool, AllocError>
    ensures { IfOk result (λ found. found ≡ is_permitted permitted.now value.now) }
{
    for syntax in &permitted.items {
        if !fits(alloc, syntax, value)? {
            return Ok(false);
        }
    }
    Ok(true)
}
