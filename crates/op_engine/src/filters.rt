//! Whether a filter can be asked of objects: X.711, section 7.5, type CMISFilter.

ghost use Rattle.std.specs.Prelude.{◌≡◌, true};
ghost use Rattle.term_model.specs.FilterTruth.{is_valid};
ghost use Rattle.operation_model.specs.OperationConditions.{has_valid_filter};
ghost use Rattle.op_engine.specs.Selecting.{passes};

use cmis_filter::{holds, is_valid};
use term_model::{Asked, Filter, NamedObject, Set};

/// Whether the filter of a request, where it is within the limits and has no invalid item by itself, is valid under a
/// schema, as each filter is that was read under it.
pub fn has_valid_filter(schema: &Set, filter: &Asked) -> bool
    ensures { result ≡ has_valid_filter schema.now filter.now }
{
    match filter {
        Asked::Good(filter) => is_valid(schema, filter),
        Asked::Bad(_) => true,
        Asked::Large => true,
    }
}

/// Whether an object passes the filter, which is valid.
pub(crate) fn passes(schema: &Set, filter: &Filter, entry: &NamedObject) -> bool
    requires valid { is_valid schema.now.attributes filter.now ≡ true }
    ensures { result ≡ passes schema.now filter.now entry.now }
{
    match holds(schema, &entry.object, filter) {
        Ok(holds) => holds,
        Err(_) => false,
    }
}
