//! The last part of a name, and the name of the superior: X.720, section 6; docs/PROFILE.md, section 15, the second
//! step.

ghost use Rattle.std.specs.Prelude.{◌≡◌, IfOk};
ghost use Rattle.term_model.specs.Creating.{has_value};

use attribute_rules::lookups::syntax_of;
use creation_values::value_sources::named_value;
use std::alloc::{AllocError, Global};
use term_model::{Name, Rdn, Set};

/// The most parts of a name. This is the project's own limit.
pub const MOST_PARTS: usize = 32;

/// Whether the value in the last part of a name is one of its attribute, where that is known.
pub fn has_value(alloc: Global, schema: &Set, part: &Rdn) -> Result<bool, AllocError>
    ensures { IfOk result (λ found. found ≡ has_value schema.now part.now) }
{
    let known = syntax_of(&schema.attributes, &part.attribute).is_some();
    let value = named_value(alloc, schema, part)?;
    Ok(!known || value.is_some())
}

/// A name of these parts.
pub fn name_of(alloc: Global, parts: &[Rdn]) -> Result<Name, AllocError>
    ensures { IfOk result (λ name. name ≡ parts.now) }
{
    let mut copies = Vec::new(alloc);
    for part in parts {
        copies.push(part.copy(alloc)?)?;
    }
    Ok(Name { parts: copies })
}
