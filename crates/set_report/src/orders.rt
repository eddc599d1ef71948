//! Identifiers and texts in rising order, each once (docs/PROFILE.md, section 19).

ghost use Rattle.std.specs.Prelude.{◌≡◌, IfOk};
ghost use Rattle.set_report.specs.Orders.{in_order};

use std::alloc::AllocError;
use term_values::{Bytes, Oid};

/// These identifiers in rising order, each once.
pub(crate) fn ids_in_order(mut ids: Vec<Oid>) -> Result<Vec<Oid>, AllocError>
    ensures { IfOk result (λ found. found.items ≡ in_order ids.items) }
{
    ids.sort()?;
    ids.dedup();
    Ok(ids)
}

/// These texts in rising order of their octets, each once.
pub(crate) fn texts_in_order(mut texts: Vec<Bytes>) -> Result<Vec<Bytes>, AllocError>
    ensures { IfOk result (λ found. found.items ≡ in_order texts.items) }
{
    texts.sort()?;
    texts.dedup();
    Ok(texts)
}
