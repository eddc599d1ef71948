//! Reads what an APDU of an association brings: X.229, sections 8 and 9; X.711, section 7.

ghost use Rattle.std.specs.Prelude.{◌≡◌, Bool, IfOk, None, Some, ℤ};
ghost use Rattle.std.specs.Option.{option_copied};
ghost use Rattle.term_values.specs.BerReading.{tree_in};
ghost use Rattle.term_values.specs.Tag.{context};
ghost use Rattle.term_values.specs.Tree.{listed};
ghost use Rattle.term_model.specs.ApduReading.{invoke_in};
ghost use Rattle.term_model.specs.Parts.{inside_under};
ghost use Rattle.agent_model.specs.Receiving.{argued, invoked, is_operation, of_tree, received_where};
ghost use Rattle.term_model.specs.declared.schema.Set.{Set};
ghost use Rattle.apdu_receiving.specs.declared.received.Received.TheVariants.{Rejected};
ghost use Rattle.apdu_receiving.specs.Arrivals.{HasSmallClass, HasValidRequest, arriving_of, is_listed};
ghost use Rattle.apdu_receiving.specs.Bringing.{Brings, asking, brought, cancelling};

use crate::invoke_parts::invoke_parts;
use crate::problems::{
    BADLY_STRUCTURED_APDU, DUPLICATE_INVOCATION, GENERAL_PROBLEM, INVOKE_PROBLEM, MISTYPED_APDU,
    MISTYPED_ARGUMENT, UNRECOGNISED_APDU, UNRECOGNISED_OPERATION,
};
use crate::received::Received;
use ber_tree::tree_reading::read_front_tree;
use cmip_requests::operations::{M_CANCEL_GET, M_EVENT_REPORT, M_EVENT_REPORT_CONFIRMED, M_GET};
use cmip_requests::{RequestRefusal, read_cancel, read_request};
use rose_frames::apdu_reading::INVOKE;
use rose_frames::parts::inside_of;
use rose_frames::{ApduRefusal, read_apdu};
use std::alloc::{AllocError, Global};
use term_model::{Invocation, Set};
use term_values::Tree;

/// The tree that all of the octets spell.
fn whole_tree(alloc: Global, bytes: &[u8]) -> Result<Option<Tree>, AllocError>
    ensures { IfOk result (λ tree. tree ≡ tree_in bytes.now) }
{
    match read_front_tree(alloc, bytes)? {
        None => Ok(None),
        Some((tree, size)) => {
            if size == bytes.len() {
                Ok(Some(tree))
            } else {
                Ok(None)
            }
        }
    }
}

/// The reject of what isn't known to be an APDU.
fn reject_apdu(problem: i64) -> Received
    ensures { result ≡ Rejected None GENERAL_PROBLEM problem }
{
    Received::Rejected {
        id: None,
        class: GENERAL_PROBLEM,
        problem,
    }
}

/// The reject of an Invoke with this invoke id.
fn reject_invoke(id: i32, problem: i64) -> Received
    ensures { result ≡ Rejected (Some id) INVOKE_PROBLEM problem }
{
    Received::Rejected {
        id: Some(id),
        class: INVOKE_PROBLEM,
        problem,
    }
}

/// The operation is one of those that a manager invokes.
fn is_operation(op: i64) -> bool
    ensures { result ≡ is_operation op }
{
    op == M_EVENT_REPORT || op == M_EVENT_REPORT_CONFIRMED || (M_GET <= op && op <= M_CANCEL_GET)
}

/// The invoke id is one of those in use.
fn is_in_use(in_use: &[i32], id: i32) -> bool
    ensures { result ≡ is_listed in_use.now id }
{
    in_use.iter().any(|used| *used == id)
}

/// What the argument of an m-Cancel-Get brings.
fn receive_cancel(id: i32, argument: &Tree) -> Received
    ensures { (schema : Set) → Brings schema (cancelling id argument.now) result }
{
    match read_cancel(argument) {
        None => reject_invoke(id, MISTYPED_ARGUMENT),
        Some(cancelled) => Received::Cancels { id, cancelled },
    }
}

/// What the argument of an operation that asks for something brings.
fn receive_request(
    alloc: Global,
    schema: &Set,
    id: i32,
    op: i64,
    argument: &Tree,
) -> Result<Received, AllocError>
    ensures { IfOk result (Brings schema.now (asking schema.now id op argument.now)) }
{
    match read_request(alloc, schema, op, argument) {
        Ok(request) => Ok(Received::Queued(Invocation { id, request })),
        Err(RequestRefusal::Mistyped) => Ok(reject_invoke(id, MISTYPED_ARGUMENT)),
        Err(RequestRefusal::Memory) => Err(AllocError),
    }
}

/// What the argument of an operation brings.
fn receive_argument(
    alloc: Global,
    schema: &Set,
    id: i32,
    op: i64,
    argument: &Tree,
) -> Result<Received, AllocError>
    ensures { IfOk result (Brings schema.now (argued schema.now id op (Some argument.now))) }
{
    if op == M_CANCEL_GET {
        Ok(receive_cancel(id, argument))
    } else {
        receive_request(alloc, schema, id, op, argument)
    }
}

/// What an operation brings, with its argument if it has one.
fn receive_operation(
    alloc: Global,
    schema: &Set,
    id: i32,
    op: i64,
    argument: Option<&Tree>,
) -> Result<Received, AllocError>
    ensures { IfOk result (Brings schema.now (argued schema.now id op (option_copied argument.entry))) }
{
    match argument {
        None => Ok(reject_invoke(id, MISTYPED_ARGUMENT)),
        Some(argument) => receive_argument(alloc, schema, id, op, argument),
    }
}

/// What an Invoke brings.
fn receive_invoke(
    alloc: Global,
    schema: &Set,
    in_use: &[i32],
    id: i32,
    op: i64,
    argument: Option<&Tree>,
) -> Result<Received, AllocError>
    ensures { IfOk result
        (Brings schema.now (invoked schema.now (is_listed in_use.now) id op (option_copied argument.entry))) }
{
    if !is_operation(op) {
        Ok(reject_invoke(id, UNRECOGNISED_OPERATION))
    } else if is_in_use(in_use, id) {
        Ok(reject_invoke(id, DUPLICATE_INVOCATION))
    } else {
        receive_operation(alloc, schema, id, op, argument)
    }
}

/// What the fields of an Invoke bring.
fn receive_inside(
    alloc: Global,
    schema: &Set,
    in_use: &[i32],
    inside: &[Tree],
) -> Result<Received, AllocError>
    ensures { IfOk result
        (Brings schema.now (brought schema.now (is_listed in_use.now) (invoke_in (listed inside.now)))) }
{
    match invoke_parts(inside) {
        None => Ok(reject_apdu(MISTYPED_APDU)),
        Some(parts) => receive_invoke(alloc, schema, in_use, parts.id, parts.op, parts.argument),
    }
}

/// What a tree brings that is no Invoke.
fn receive_other(alloc: Global, tree: &Tree) -> Result<Received, AllocError>
    ensures { inside_under (context 1) tree.now ≡ None → (schema : Set) → (in_use : ℤ → Bool)
        → IfOk result (Brings schema (of_tree schema in_use tree.now)) }
{
    match read_apdu(alloc, tree).err() {
        None => Ok(Received::NoEffect),
        Some(ApduRefusal::Unrecognised) => Ok(reject_apdu(UNRECOGNISED_APDU)),
        Some(ApduRefusal::MistypedApdu) => Ok(reject_apdu(MISTYPED_APDU)),
        Some(ApduRefusal::Memory) => Err(AllocError),
    }
}

/// What a tree brings.
fn receive_tree(
    alloc: Global,
    schema: &Set,
    in_use: &[i32],
    tree: &Tree,
) -> Result<Received, AllocError>
    ensures { IfOk result (Brings schema.now (of_tree schema.now (is_listed in_use.now) tree.now)) }
{
    match inside_of(tree, INVOKE) {
        Some(inside) => receive_inside(alloc, schema, in_use, inside),
        None => receive_other(alloc, tree),
    }
}

/// What an APDU of an association brings: X.229, sections 8 and 9; X.711, section 7. The schema tells what the values
/// of a request are, and `in_use` has the invoke ids of the association's operations that haven't ended, in any order.
/// A linked id of an Invoke is ignored. The time is linear in the octets of the APDU and in the number of invoke ids,
/// but for values that are sets, which are sorted, and for the search of records. The only error is want of memory.
pub fn receive_apdu(
    alloc: Global,
    schema: &Set,
    in_use: &[i32],
    apdu: &[u8],
) -> Result<Received, AllocError>
    ensures received { IfOk result
        (λ told. arriving_of told ≡ received_where schema.now (is_listed in_use.now) apdu.now) }
    ensures small_class { IfOk result HasSmallClass }
    ensures valid { IfOk result (HasValidRequest schema.now) }
{
    match whole_tree(alloc, apdu)? {
        None => Ok(reject_apdu(BADLY_STRUCTURED_APDU)),
        Some(tree) => receive_tree(alloc, schema, in_use, &tree),
    }
}
