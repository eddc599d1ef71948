//! Reads the APDUs of remote operations: X.229, section 9.

ghost use Rattle.std.specs.Prelude.{◌≡◌, ◌↔◌, ◌&&◌, ◌==◌, nat_lt, true, false, None, Some, Ok, Err, IfOk};
ghost use Rattle.std.specs.Prelude.{if◌then◌else◌};
ghost use Rattle.std.specs.Option.{option_copied};
ghost use Rattle.term_values.specs.Tree.{listed};
ghost use Rattle.term_model.specs.ApduReading.{apdu_of, error_id, error_in, error_number, fields_in, invoke_id};
ghost use Rattle.term_model.specs.ApduReading.{invoke_in, invoke_linked, invoke_operation, is_apdu_tag, is_class};
ghost use Rattle.term_model.specs.ApduReading.{is_recognised, null_in, problem_in, reject_in, reject_parts};
ghost use Rattle.term_model.specs.ApduReading.{rejected_in, result_body, result_id, result_in, result_parts};
ghost use Rattle.rose_frames.specs.declared.apdu_refusal.ApduRefusal.TheVariants.{Unrecognised, MistypedApdu};

use crate::apdu_refusal::ApduRefusal;
use crate::parts::{
    at_most_one, contents_of, id_first, id_of, integer_of, linked_first, number_first, pair, two_of,
};
use crate::tree_copying::{copy_any, copy_tree};
use ber_tree::tree_reading::read_integer_contents;
use std::alloc::{AllocError, Global};
use term_model::Apdu;
use term_values::tag::CONTEXT;
use term_values::{Body, Tag, Tree};

/// The tag of an Invoke APDU.
pub const INVOKE: Tag = Tag {
    class: CONTEXT,
    number: 1,
};

/// The tag of a Result APDU.
pub const RESULT: Tag = Tag {
    class: CONTEXT,
    number: 2,
};

/// The tag of an Error APDU.
pub const ERROR: Tag = Tag {
    class: CONTEXT,
    number: 3,
};

/// The tag of a Reject APDU.
pub const REJECT: Tag = Tag {
    class: CONTEXT,
    number: 4,
};

/// How many classes of problems there are.
const CLASSES: u32 = 4;

/// The argument of an Invoke, behind its operation.
fn invoke_operation(
    alloc: Global,
    id: i32,
    linked: Option<i32>,
    op: i64,
    rest: &[Tree],
) -> Result<Option<Apdu>, AllocError>
    ensures { IfOk result (λ apdu. apdu ≡ invoke_operation id linked op (listed rest.now)) }
{
    match at_most_one(rest) {
        None => Ok(None),
        Some(argument) => {
            let argument = copy_any(alloc, argument)?;
            Ok(Some(Apdu::Invoke {
                id,
                linked,
                op,
                argument,
            }))
        }
    }
}

/// The operation of an Invoke, behind its linked id.
fn invoke_linked(
    alloc: Global,
    id: i32,
    linked: Option<i32>,
    rest: &[Tree],
) -> Result<Option<Apdu>, AllocError>
    ensures { IfOk result (λ apdu. apdu ≡ invoke_linked id linked (listed rest.now)) }
{
    match number_first(rest) {
        None => Ok(None),
        Some((op, rest)) => invoke_operation(alloc, id, linked, op, rest),
    }
}

/// The linked id of an Invoke, behind its invoke id.
fn invoke_id(alloc: Global, id: i32, rest: &[Tree]) -> Result<Option<Apdu>, AllocError>
    ensures { IfOk result (λ apdu. apdu ≡ invoke_id id (listed rest.now)) }
{
    match linked_first(rest) {
        None => Ok(None),
        Some((linked, rest)) => invoke_linked(alloc, id, linked, rest),
    }
}

/// The fields of an Invoke.
fn invoke_in(alloc: Global, inside: &[Tree]) -> Result<Option<Apdu>, AllocError>
    ensures { IfOk result (λ apdu. apdu ≡ invoke_in (listed inside.now)) }
{
    match id_first(inside) {
        None => Ok(None),
        Some((id, rest)) => invoke_id(alloc, id, rest),
    }
}

/// The operation and the value of a result.
fn result_parts(alloc: Global, id: i32, op: &Tree, value: &Tree) -> Result<Option<Apdu>, AllocError>
    ensures { IfOk result (λ apdu. apdu ≡ result_parts id (op.now, value.now)) }
{
    match integer_of(op, Tag::INTEGER) {
        None => Ok(None),
        Some(op) => {
            let value = copy_tree(alloc, value)?;
            Ok(Some(Apdu::Result {
                id,
                op: Some(op),
                value: Some(value),
            }))
        }
    }
}

/// What a Result has behind its invoke id, if anything.
fn result_body(alloc: Global, id: i32, body: &Tree) -> Result<Option<Apdu>, AllocError>
    ensures { IfOk result (λ apdu. apdu ≡ result_body id (Some body.now)) }
{
    match two_of(body, Tag::SEQUENCE) {
        None => Ok(None),
        Some((op, value)) => result_parts(alloc, id, op, value),
    }
}

fn result_id(alloc: Global, id: i32, rest: &[Tree]) -> Result<Option<Apdu>, AllocError>
    ensures { IfOk result (λ apdu. apdu ≡ result_id id (listed rest.now)) }
{
    match at_most_one(rest) {
        None => Ok(None),
        Some(None) => Ok(Some(Apdu::Result {
            id,
            op: None,
            value: None,
        })),
        Some(Some(body)) => result_body(alloc, id, body),
    }
}

/// The fields of a Result.
fn result_in(alloc: Global, inside: &[Tree]) -> Result<Option<Apdu>, AllocError>
    ensures { IfOk result (λ apdu. apdu ≡ result_in (listed inside.now)) }
{
    match id_first(inside) {
        None => Ok(None),
        Some((id, rest)) => result_id(alloc, id, rest),
    }
}

/// The parameter of an Error, behind its number.
fn error_number(
    alloc: Global,
    id: i32,
    error: i64,
    rest: &[Tree],
) -> Result<Option<Apdu>, AllocError>
    ensures { IfOk result (λ apdu. apdu ≡ error_number id error (listed rest.now)) }
{
    match at_most_one(rest) {
        None => Ok(None),
        Some(parameter) => {
            let parameter = copy_any(alloc, parameter)?;
            Ok(Some(Apdu::Error {
                id,
                error,
                parameter,
            }))
        }
    }
}

/// The number of an Error, behind its invoke id.
fn error_id(alloc: Global, id: i32, rest: &[Tree]) -> Result<Option<Apdu>, AllocError>
    ensures { IfOk result (λ apdu. apdu ≡ error_id id (listed rest.now)) }
{
    match number_first(rest) {
        None => Ok(None),
        Some((error, rest)) => error_number(alloc, id, error, rest),
    }
}

/// The fields of an Error.
fn error_in(alloc: Global, inside: &[Tree]) -> Result<Option<Apdu>, AllocError>
    ensures { IfOk result (λ apdu. apdu ≡ error_in (listed inside.now)) }
{
    match id_first(inside) {
        None => Ok(None),
        Some((id, rest)) => error_id(alloc, id, rest),
    }
}

/// No invoke id, where the value is NULL.
fn null_in(tree: &Tree) -> Option<Option<i32>>
    ensures { result ≡ null_in tree.now }
{
    match &tree.body {
        Body::Prim(contents) if contents.as_slice().is_empty() => Some(None),
        _ => None,
    }
}

/// The invoke id of what is rejected.
fn rejected_in(tree: &Tree) -> Option<Option<i32>>
    ensures { result ≡ rejected_in tree.now }
{
    if tree.tag == Tag::NULL {
        null_in(tree)
    } else {
        Some(Some(id_of(tree, Tag::INTEGER)?))
    }
}

/// The tag is that of a problem.
fn is_class(tag: Tag) -> bool
    ensures { result ≡ is_class tag }
{
    tag.class == CONTEXT && tag.number < CLASSES
}

/// The class of a problem and its number.
fn problem_in(tree: &Tree) -> Option<(u8, i64)>
    ensures { result ≡ problem_in tree.now }
{
    if !is_class(tree.tag) {
        return None;
    }
    match &tree.body {
        Body::Prim(contents) => {
            let problem = read_integer_contents(contents.as_slice())?;
            Some((tree.tag.number as u8, problem))
        }
        Body::Cons(_) => None,
    }
}

/// The fields of a Reject.
fn reject_in(inside: &[Tree]) -> Option<Apdu>
    ensures { result ≡ reject_in (listed inside.now) }
{
    let (id, problem) = pair(inside)?;
    let id = rejected_in(id)?;
    let (class, problem) = problem_in(problem)?;
    Some(Apdu::Reject { id, class, problem })
}

/// The fields of the APDU with this tag.
fn fields_in(alloc: Global, tag: Tag, inside: &[Tree]) -> Result<Option<Apdu>, AllocError>
    ensures { IfOk result (λ apdu. apdu ≡ fields_in tag (listed inside.now)) }
{
    if tag == INVOKE {
        invoke_in(alloc, inside)
    } else if tag == RESULT {
        result_in(alloc, inside)
    } else if tag == ERROR {
        error_in(alloc, inside)
    } else if tag == REJECT {
        Ok(reject_in(inside))
    } else {
        Ok(None)
    }
}

/// The tag is that of an APDU.
fn is_apdu_tag(tag: Tag) -> bool
    ensures { result ≡ is_apdu_tag tag }
{
    tag.class == CONTEXT && INVOKE.number <= tag.number && tag.number <= REJECT.number
}

/// The APDU that a tree is (X.229, section 9): `Unrecognised` exactly where its tag isn't that of a constructed
/// context-specific value with a number from 1 to 4; else `MistypedApdu` where a field is missing, wrong, too many or
/// past its range; `Memory` where there is none for a copy of what the APDU holds.
pub fn read_apdu(alloc: Global, tree: &Tree) -> Result<Apdu, ApduRefusal>
    ensures denotes { IfOk result (λ apdu. apdu_of tree.now ≡ Some apdu) }
    ensures unrecognised { (result ≡ Err Unrecognised) ↔ (is_recognised tree.now ≡ false) }
    ensures mistyped { result ≡ Err MistypedApdu → (is_recognised tree.now ≡ true) × (apdu_of tree.now ≡ None) }
{
    let inside = match &tree.body {
        Body::Prim(_) => return Err(ApduRefusal::Unrecognised),
        Body::Cons(inside) => inside.items.as_slice(),
    };
    if !is_apdu_tag(tree.tag) {
        return Err(ApduRefusal::Unrecognised);
    }
    match fields_in(alloc, tree.tag, inside)? {
        None => Err(ApduRefusal::MistypedApdu),
        Some(apdu) => Ok(apdu),
    }
}
