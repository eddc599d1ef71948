//! The request that the argument of an operation gives: X.711, section 7.

ghost use Rattle.std.specs.Prelude.{◌≡◌, Err, IfOk, None, Some, option_and_then};
ghost use Rattle.std.specs.Option.{option_copied, option_map};
ghost use Rattle.term_values.specs.Tree.{listed};
ghost use Rattle.cmip_requests.specs.declared.request_refusal.RequestRefusal.TheVariants.{Mistyped};
ghost use Rattle.term_model.specs.ScopedReading.{action_inside, action_of, asked_ids, changes_of, delete_of, get_of};
ghost use Rattle.term_model.specs.ScopedReading.{ids_of, set_of};
ghost use Rattle.term_model.specs.RequestReading.{cancelled_in, request_in, request_inside, scoped_of};
ghost use Rattle.term_model.specs.ArgumentRows.{inside_last};

use crate::actions::read_action;
use crate::changes::read_changes;
use crate::creating::read_create;
use crate::operations::{
    M_ACTION, M_ACTION_CONFIRMED, M_CREATE, M_DELETE, M_EVENT_REPORT, M_EVENT_REPORT_CONFIRMED,
    M_GET, M_SET, M_SET_CONFIRMED,
};
use crate::reports::read_report;
use crate::request_refusal::RequestRefusal;
use argument_parts::heads::{Scoped, read_head, scoped_in};
use argument_parts::instances::inside_any;
use argument_parts::lists::read_ids;
use argument_parts::parts::{inside_of, integer_of, is_end};
use argument_parts::rows::{at_end, inside_last};
use std::alloc::{AllocError, Global};
use term_model::{ActRecs, AttrRecs, Changes, Given, IdRef, Ids, Request, Set};
use term_values::{Tag, Tree};

/// The identifiers of a Get.
fn ids_of(alloc: Global, tree: Option<&Tree>) -> Result<Option<Option<Ids>>, AllocError>
    ensures { IfOk result (λ ids. ids ≡ ids_of (option_copied tree.entry)) }
{
    match tree {
        None => Ok(Some(None)),
        Some(tree) => match inside_any(tree) {
            None => Ok(None),
            Some(inside) => match read_ids(alloc, inside)? {
                None => Ok(None),
                Some(ids) => Ok(Some(Some(ids))),
            },
        },
    }
}

fn asked_ids(alloc: Global, rest: &[Tree]) -> Result<Option<Option<Ids>>, AllocError>
    ensures { IfOk result (λ ids. ids ≡ asked_ids (listed rest.now)) }
{
    match at_end(12, rest) {
        None => Ok(None),
        Some(tree) => ids_of(alloc, tree),
    }
}

fn read_get(alloc: Global, set: &Set, trees: &Scoped<'_>) -> Result<Option<Request>, AllocError>
    ensures { IfOk result (λ request. request ≡ get_of set.now (record {
      class = trees.now.class.now;
      base = trees.now.base.now;
      access = option_copied trees.now.access;
      sync = option_copied trees.now.sync;
      scope = option_copied trees.now.scope;
      filter = option_copied trees.now.filter;
      rest = listed trees.now.rest.now;
    })) }
{
    match asked_ids(alloc, trees.rest)? {
        None => Ok(None),
        Some(ids) => match read_head(alloc, set, trees)? {
            None => Ok(None),
            Some(head) => Ok(Some(Request::Get { head, ids })),
        },
    }
}

/// The modifications.
fn changes_of(
    alloc: Global,
    records: &AttrRecs,
    rest: &[Tree],
) -> Result<Option<Changes>, AllocError>
    ensures { IfOk result (λ changes. changes ≡ changes_of records.now (listed rest.now)) }
{
    match inside_last(12, rest) {
        None => Ok(None),
        Some(inside) => read_changes(alloc, records, inside),
    }
}

fn read_set(
    alloc: Global,
    set: &Set,
    confirmed: bool,
    trees: &Scoped<'_>,
) -> Result<Option<Request>, AllocError>
    ensures { IfOk result (λ request. request ≡ set_of set.now confirmed (record {
      class = trees.now.class.now;
      base = trees.now.base.now;
      access = option_copied trees.now.access;
      sync = option_copied trees.now.sync;
      scope = option_copied trees.now.scope;
      filter = option_copied trees.now.filter;
      rest = listed trees.now.rest.now;
    })) }
{
    match changes_of(alloc, &set.attributes, trees.rest)? {
        None => Ok(None),
        Some(changes) => match read_head(alloc, set, trees)? {
            None => Ok(None),
            Some(head) => Ok(Some(Request::Set {
                head,
                changes,
                confirmed,
            })),
        },
    }
}

/// The action and its argument.
fn action_at_end(
    alloc: Global,
    records: &ActRecs,
    rest: &[Tree],
) -> Result<Option<(IdRef, Option<Given>)>, AllocError>
    ensures { IfOk result (λ action.
        action ≡ option_and_then (action_inside records.now) (inside_last 12 (listed rest.now))) }
{
    match inside_last(12, rest) {
        None => Ok(None),
        Some(inside) => read_action(alloc, records, inside),
    }
}

fn read_act(
    alloc: Global,
    set: &Set,
    confirmed: bool,
    trees: &Scoped<'_>,
) -> Result<Option<Request>, AllocError>
    ensures { IfOk result (λ request. request ≡ action_of set.now confirmed (record {
      class = trees.now.class.now;
      base = trees.now.base.now;
      access = option_copied trees.now.access;
      sync = option_copied trees.now.sync;
      scope = option_copied trees.now.scope;
      filter = option_copied trees.now.filter;
      rest = listed trees.now.rest.now;
    })) }
{
    match action_at_end(alloc, &set.actions, trees.rest)? {
        None => Ok(None),
        Some((action, argument)) => match read_head(alloc, set, trees)? {
            None => Ok(None),
            Some(head) => Ok(Some(Request::Act {
                head,
                action,
                argument,
                confirmed,
            })),
        },
    }
}

fn read_delete(alloc: Global, set: &Set, trees: &Scoped<'_>) -> Result<Option<Request>, AllocError>
    ensures { IfOk result (λ request. request ≡ delete_of set.now (record {
      class = trees.now.class.now;
      base = trees.now.base.now;
      access = option_copied trees.now.access;
      sync = option_copied trees.now.sync;
      scope = option_copied trees.now.scope;
      filter = option_copied trees.now.filter;
      rest = listed trees.now.rest.now;
    })) }
{
    if !is_end(trees.rest) {
        return Ok(None);
    }
    match read_head(alloc, set, trees)? {
        None => Ok(None),
        Some(head) => Ok(Some(Request::Delete { head })),
    }
}

/// The request of an operation with a scope.
fn read_scoped(
    alloc: Global,
    set: &Set,
    op: i64,
    trees: &Scoped<'_>,
) -> Result<Option<Request>, AllocError>
    ensures { IfOk result (λ request. request ≡ scoped_of set.now op (record {
      class = trees.now.class.now;
      base = trees.now.base.now;
      access = option_copied trees.now.access;
      sync = option_copied trees.now.sync;
      scope = option_copied trees.now.scope;
      filter = option_copied trees.now.filter;
      rest = listed trees.now.rest.now;
    })) }
{
    if op == M_GET {
        read_get(alloc, set, trees)
    } else if op == M_SET {
        read_set(alloc, set, false, trees)
    } else if op == M_SET_CONFIRMED {
        read_set(alloc, set, true, trees)
    } else if op == M_ACTION {
        read_act(alloc, set, false, trees)
    } else if op == M_ACTION_CONFIRMED {
        read_act(alloc, set, true, trees)
    } else if op == M_DELETE {
        read_delete(alloc, set, trees)
    } else {
        Ok(None)
    }
}

fn read_inside(
    alloc: Global,
    set: &Set,
    op: i64,
    inside: &[Tree],
) -> Result<Option<Request>, AllocError>
    ensures { IfOk result (λ request. request ≡ request_inside set.now op (listed inside.now)) }
{
    if op == M_EVENT_REPORT {
        read_report(alloc, set, false, inside)
    } else if op == M_EVENT_REPORT_CONFIRMED {
        read_report(alloc, set, true, inside)
    } else if op == M_CREATE {
        read_create(alloc, set, inside)
    } else {
        match scoped_in(inside) {
            None => Ok(None),
            Some(trees) => read_scoped(alloc, set, op, &trees),
        }
    }
}

/// The request that an argument gives, or none.
fn request_in(
    alloc: Global,
    set: &Set,
    op: i64,
    argument: &Tree,
) -> Result<Option<Request>, AllocError>
    ensures { IfOk result (λ request. request ≡ request_in set.now op argument.now) }
{
    match inside_of(argument, Tag::SEQUENCE) {
        None => Ok(None),
        Some(inside) => read_inside(alloc, set, op, inside),
    }
}

/// The request that the argument of the operation with this number gives under a schema: X.711, section 7. `Mistyped`
/// exactly where it gives none: the operation isn't one of those that ask for something, or the argument isn't one of
/// its syntax. Values that don't fit their attributes, names of nothing and filters past the limits are parts of a
/// request. `Memory` where there is none for what the request holds. The time is linear in the octets of the argument,
/// but for values that are sets, which are sorted, and for the search of records.
pub fn read_request(
    alloc: Global,
    set: &Set,
    op: i64,
    argument: &Tree,
) -> Result<Request, RequestRefusal>
    ensures given { IfOk result (λ request. request_in set.now op argument.now ≡ Some request) }
    ensures mistyped { result ≡ Err Mistyped → request_in set.now op argument.now ≡ None }
{
    match request_in(alloc, set, op, argument) {
        Ok(Some(request)) => Ok(request),
        Ok(None) => Err(RequestRefusal::Mistyped),
        Err(AllocError) => Err(RequestRefusal::Memory),
    }
}

/// The invoke id that the argument of m-Cancel-Get gives, a number of 64 bits, or none: X.711, section 7.4.
pub fn read_cancel(argument: &Tree) -> Option<i64>
    ensures { result ≡ cancelled_in argument.now }
{
    integer_of(argument, Tag::INTEGER)
}
