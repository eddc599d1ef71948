//! The filters of requests: X.711, section 7.5, type CMISFilter.

ghost use Rattle.std.specs.Prelude.{◌≡◌, IfOk};
ghost use Rattle.term_model.specs.FilterReading.{asked_in};

use cmis_filter::{FilterRefusal, read_filter};
use std::alloc::{AllocError, Global};
use term_model::{Asked, Set};
use term_values::Tree;

/// The filter as it is asked, or none where the tree is no filter.
pub fn read_asked(alloc: Global, set: &Set, tree: &Tree) -> Result<Option<Asked>, AllocError>
    ensures { IfOk result (λ asked. asked ≡ asked_in set.now.attributes tree.now) }
{
    match read_filter(alloc, set, tree) {
        Ok(asked) => Ok(Some(asked)),
        Err(FilterRefusal::Mistyped) => Ok(None),
        Err(FilterRefusal::Memory) => Err(AllocError),
    }
}
