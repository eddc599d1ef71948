//! The objects that a scope and a filter select: X.711, section 7.5, types Scope and CMISFilter.

ghost use Rattle.std.specs.Prelude.{◌≡◌, ◌∷◌, ◌++◌, [], IfOk, OnOk, if◌then◌else◌, true};
ghost use Rattle.std.specs.Prelude.{filter as filter_by};
ghost use Rattle.std.specs.List.Sorted.{IsStrictlySortedBy};
ghost use Rattle.term_model.specs.FilterTruth.{is_valid};
ghost use Rattle.term_model.specs.NameOrder.{name_cmp};
ghost use Rattle.term_model.specs.NamedObjects.{names};
ghost use Rattle.operation_model.specs.OperationChecks.{checked_by, names_fault, selected_by};
ghost use Rattle.operation_model.specs.OperationConditions.{has_valid_filter};
ghost use Rattle.op_engine.specs.Plans.{TellsChecked};
ghost use Rattle.op_engine.specs.Selecting.{AreThere, passes, passing_by};
ghost use Rattle.scope_select.specs.Subtrees.{referred};

use crate::filters::passes;
use result_contents::errors::complexity_limitation;
use scope_select::{ScopeRefusal, Subtrees, entries_in_scope};
use std::alloc::{AllocError, Global};
use term_model::{Asked, Filter, Head, Name, NamedObject, OneRefusal, Set, StepLedger, Steps};

/// The most names that a scope may have.
pub const MOST_NAMES: u64 = 50_000;

/// Adds an object that passes the filter.
fn add_passing<'a>(
    schema: &Set,
    filter: &Filter,
    entry: &'a NamedObject,
    found: &mut Vec<&'a NamedObject>,
) -> Result<(), AllocError>
    requires valid { is_valid schema.now.attributes filter.now ≡ true }
    ensures { OnOk result (referred found.new.items ≡ referred found.old.items
        ++ (if passes schema.now filter.now entry.now then entry.now ∷ [] else [])) }
{
    if passes(schema, filter, entry) {
        found.push(entry)?;
    }
    Ok(())
}

/// Those of these objects that pass the filter, in their order.
fn passing<'a>(
    alloc: Global,
    schema: &Set,
    filter: &Filter,
    entries: &[&'a NamedObject],
) -> Result<Vec<&'a NamedObject>, AllocError>
    requires valid { is_valid schema.now.attributes filter.now ≡ true }
    ensures { IfOk result (λ found. referred found.items
        ≡ filter_by (passes schema.now filter.now) (referred entries.now)) }
{
    let mut found = Vec::new(alloc);
    for entry in entries {
        add_passing(schema, filter, *entry, &mut found)?;
    }
    Ok(found)
}

/// Those of the objects in scope that pass the filter, which is past no limit and has no invalid item.
fn passing_entries<'a>(
    alloc: Global,
    schema: &Set,
    filter: &Asked,
    entries: &[&'a NamedObject],
) -> Result<Vec<&'a NamedObject>, AllocError>
    requires valid { has_valid_filter schema.now filter.now ≡ true }
    ensures { IfOk result (λ found. referred found.items ≡ passing_by schema.now filter.now (referred entries.now)) }
{
    match filter {
        Asked::Good(filter) => passing(alloc, schema, filter, entries),
        Asked::Bad(_) => Ok(Vec::new(alloc)),
        Asked::Large => Ok(Vec::new(alloc)),
    }
}

/// The objects in scope that pass the filter with their names, by the order of names, of a base object by its name;
/// complexityLimitation where more than 50,000 names are in scope.
pub(crate) fn selected_entries<'a, L: StepLedger, M: Subtrees<L>>(
    alloc: Global,
    schema: &Set,
    mib: &'a M,
    base: &Name,
    head: &Head,
    steps: &mut Steps<L>,
) -> Result<Vec<&'a NamedObject>, OneRefusal>
    requires valid { has_valid_filter schema.now head.now.filter ≡ true }
    ensures told { TellsChecked (checked_by (names_fault (M.objects mib.now) base.now head.now.scope)
        (selected_by schema.now (M.objects mib.now) base.now head.now.scope head.now.filter)) result }
    ensures rising { IfOk result (λ entries. IsStrictlySortedBy name_cmp (names (referred entries.items))) }
    ensures there { IfOk result (λ entries. AreThere (M.objects mib.now) (referred entries.items)) }
{
    match entries_in_scope(alloc, mib, base, &head.scope, MOST_NAMES, steps) {
        Ok(entries) => {
            let found = passing_entries(alloc, schema, &head.filter, entries.as_slice())?;
            Ok(found)
        }
        Err(ScopeRefusal::TooMany) => Err(OneRefusal::Cmis(complexity_limitation())),
        Err(ScopeRefusal::Memory) => Err(OneRefusal::Memory),
    }
}
