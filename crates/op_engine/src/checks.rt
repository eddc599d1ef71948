//! What is tried before an operation acts on objects: X.711, section 7.5; docs/PROFILE.md, section 17.

ghost use Rattle.std.specs.Prelude.{◌≡◌, IfErr, IfOk, true};
ghost use Rattle.std.specs.List.Sorted.{IsStrictlySortedBy};
ghost use Rattle.std.specs.Option.{option_copied};
ghost use Rattle.term_model.specs.NameOrder.{name_cmp};
ghost use Rattle.operation_model.specs.OperationChecks.{base_object, checked, class_fault, class_named};
ghost use Rattle.operation_model.specs.OperationChecks.{conflict_fault, filter_fault, form_fault, is_class_for, is_large};
ghost use Rattle.operation_model.specs.OperationChecks.{is_of_class, is_scope, is_specific, is_synchronization, scope_fault};
ghost use Rattle.operation_model.specs.OperationChecks.{size_fault, sync_fault};
ghost use Rattle.operation_model.specs.OperationConditions.{has_valid_filter};
ghost use Rattle.op_engine.specs.Plans.{IsBase, TellsAbsent, TellsChecked, TellsFault};
ghost use Rattle.op_engine.specs.Selecting.{AreThere};
ghost use Rattle.scope_select.specs.Subtrees.{referred};
ghost use Rattle.term_model.specs.NamedObjects.{names};

use crate::selecting::selected_entries;
use result_contents::errors::{
    class_instance_conflict, complexity_limitation, invalid_filter, invalid_instance,
    invalid_scope, no_such_instance, no_such_object_class, sync_not_supported,
};
use scope_select::Subtrees;
use std::alloc::Global;
use term_model::ranged::Ranged;
use term_model::request::{ATOMIC, BEST_EFFORT};
use term_model::scope::{BASE_OBJECT, WHOLE_SUBTREE};
use term_model::{
    Asked, ClassRec, Head, IdRef, Name, Named, NamedObject, Object, OneRefusal, Scope, Set,
    StepLedger, Steps,
};

/// The most identifiers or modifications that a list may have.
pub const MOST_LISTED: usize = 1_024;

/// The class of the schema that a request names.
fn class_named<'a>(schema: &'a Set, class: &IdRef) -> Option<&'a ClassRec>
    ensures { option_copied result ≡ class_named schema.now class.now }
{
    match class {
        IdRef::Global(arcs) => schema.classes.find(arcs),
        IdRef::Local(_) => None,
    }
}

/// noSuchObjectClass where the class is local or no class of the schema.
fn check_class(alloc: Global, schema: &Set, head: &Head) -> Result<(), OneRefusal>
    ensures { TellsFault (class_fault schema.now head.now) result }
{
    if class_named(schema, &head.class).is_some() {
        return Ok(());
    }
    Err(OneRefusal::Cmis(no_such_object_class(alloc, &head.class)?))
}

/// Whether an instance is in another form than nonSpecificForm.
fn is_specific(named: &Named) -> bool
    ensures { result ≡ is_specific named.now }
{
    match named {
        Named::NonSpecific => false,
        Named::Nothing => true,
        Named::Object(_) => true,
    }
}

/// invalidObjectInstance where the base object is named in nonSpecificForm.
fn check_form(alloc: Global, head: &Head) -> Result<(), OneRefusal>
    ensures { TellsFault (form_fault head.now) result }
{
    if is_specific(&head.base.named) {
        return Ok(());
    }
    let error = invalid_instance(alloc, head.base.raw.as_slice())?;
    Err(OneRefusal::Cmis(error))
}

/// The base object, where it is there.
fn base_object<'a, L: StepLedger, M: Ranged<L>>(
    mib: &'a M,
    named: &Named,
    steps: &mut Steps<L>,
) -> Option<&'a Object>
    ensures { option_copied result ≡ base_object (M.objects mib.now) named.now }
{
    match named {
        Named::Object(base) => mib.at(base, steps),
        Named::NonSpecific => None,
        Named::Nothing => None,
    }
}

/// The name of the base object, or noSuchObjectInstance where it isn't there.
fn check_base<'a, L: StepLedger, M: Ranged<L>>(
    alloc: Global,
    mib: &M,
    head: &'a Head,
    steps: &mut Steps<L>,
) -> Result<&'a Name, OneRefusal>
    ensures base { IfOk result (λ base. IsBase (M.objects mib.now) head.now base.now) }
    ensures absent { IfErr result (TellsAbsent (M.objects mib.now) head.now) }
{
    if let Named::Object(base) = &head.base.named {
        if mib.at(base, steps).is_some() {
            return Ok(base);
        }
    }
    let error = no_such_instance(alloc, head.base.raw.as_slice())?;
    Err(OneRefusal::Cmis(error))
}

/// Whether a request for this class may act on the object.
fn is_class_for(class: &ClassRec, object: &Object) -> bool
    ensures { result ≡ is_class_for class.now object.now }
{
    class.id == object.class || class.label.as_slice() == b"actualClass".as_slice()
}

/// Whether there is a class, and an object on which a request for it may act.
fn is_of_class(class: Option<&ClassRec>, object: Option<&Object>) -> bool
    ensures { result ≡ is_of_class (option_copied class.entry) (option_copied object.entry) }
{
    match (class, object) {
        (Some(class), Some(object)) => is_class_for(class, object),
        _ => false,
    }
}

/// classInstanceConflict where the class isn't for the base object.
fn check_conflict<L: StepLedger, M: Ranged<L>>(
    alloc: Global,
    schema: &Set,
    mib: &M,
    head: &Head,
    steps: &mut Steps<L>,
) -> Result<(), OneRefusal>
    ensures { TellsFault (conflict_fault schema.now (M.objects mib.now) head.now) result }
{
    let class = class_named(schema, &head.class);
    let object = base_object(mib, &head.base.named, steps);
    if is_of_class(class, object) {
        return Ok(());
    }
    let error = class_instance_conflict(alloc, &head.class, head.base.raw.as_slice())?;
    Err(OneRefusal::Cmis(error))
}

/// Whether it is bestEffort or atomic.
fn is_synchronization(sync: i64) -> bool
    ensures { result ≡ is_synchronization sync }
{
    sync == BEST_EFFORT || sync == ATOMIC
}

/// syncNotSupported where the synchronization is neither bestEffort nor atomic.
fn check_sync(alloc: Global, head: &Head) -> Result<(), OneRefusal>
    ensures { TellsFault (sync_fault head.now) result }
{
    if is_synchronization(head.sync) {
        return Ok(());
    }
    Err(OneRefusal::Cmis(sync_not_supported(alloc, head.sync)?))
}

/// Whether the scope's number is one of a scope, or its level not negative.
fn is_scope(scope: &Scope) -> bool
    ensures { result ≡ is_scope scope.now }
{
    match scope {
        Scope::Plain(number) => BASE_OBJECT <= *number && *number <= WHOLE_SUBTREE,
        Scope::Level(number) => 0 <= *number,
        Scope::Upto(number) => 0 <= *number,
    }
}

/// invalidScope where it is none.
fn check_scope(alloc: Global, head: &Head) -> Result<(), OneRefusal>
    ensures { TellsFault (scope_fault head.now) result }
{
    if is_scope(&head.scope) {
        return Ok(());
    }
    Err(OneRefusal::Cmis(invalid_scope(alloc, head.scope)?))
}

/// Whether a filter is past its limits.
fn is_large(filter: &Asked) -> bool
    ensures { result ≡ is_large filter.now }
{
    match filter {
        Asked::Large => true,
        Asked::Good(_) => false,
        Asked::Bad(_) => false,
    }
}

/// complexityLimitation where the filter or the list is past its limits.
fn check_size(head: &Head, listed: usize) -> Result<(), OneRefusal>
    ensures { TellsFault (size_fault head.now listed) result }
{
    if is_large(&head.filter) || listed > MOST_LISTED {
        return Err(OneRefusal::Cmis(complexity_limitation()));
    }
    Ok(())
}

/// invalidFilter where the filter has an invalid item.
fn check_filter(alloc: Global, filter: &Asked) -> Result<(), OneRefusal>
    ensures { TellsFault (filter_fault filter.now) result }
{
    match filter {
        Asked::Bad(octets) => {
            let error = invalid_filter(alloc, octets.as_slice())?;
            Err(OneRefusal::Cmis(error))
        }
        Asked::Good(_) => Ok(()),
        Asked::Large => Ok(()),
    }
}

/// The objects on which an operation acts with their names, by the order of names, or the error of the first check that
/// fails: noSuchObjectClass; invalidObjectInstance; noSuchObjectInstance; classInstanceConflict; syncNotSupported;
/// invalidScope; complexityLimitation, where the filter or the list of identifiers or modifications is past its
/// limits; invalidFilter; complexityLimitation, where more than 50,000 names are in scope. `listed` is the length of
/// the list. Each look into the map is counted on `steps`.
///
/// The filter must be valid under the schema, as each is that was read under it ([`crate::filters::has_valid_filter`]).
pub fn checked<'a, L: StepLedger, M: Subtrees<L>>(
    alloc: Global,
    schema: &Set,
    mib: &'a M,
    head: &Head,
    listed: usize,
    steps: &mut Steps<L>,
) -> Result<Vec<&'a NamedObject>, OneRefusal>
    requires valid { has_valid_filter schema.now head.now.filter ≡ true }

    // the objects, or the error of the first check that fails
    ensures told { TellsChecked (checked schema.now (M.objects mib.now) head.now listed) result }

    // by the order of names, each once, as they stand in the map
    ensures rising { IfOk result (λ entries. IsStrictlySortedBy name_cmp (names (referred entries.items))) }
    ensures there { IfOk result (λ entries. AreThere (M.objects mib.now) (referred entries.items)) }
{
    check_class(alloc, schema, head)?;
    check_form(alloc, head)?;
    let base = check_base(alloc, mib, head, steps)?;
    check_conflict(alloc, schema, mib, head, steps)?;
    check_sync(alloc, head)?;
    check_scope(alloc, head)?;
    check_size(head, listed)?;
    check_filter(alloc, &head.filter)?;
    selected_entries(alloc, schema, mib, base, head, steps)
}
