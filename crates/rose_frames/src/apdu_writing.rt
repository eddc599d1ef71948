//! Writes the APDUs of remote operations in frames: X.229, section 9. Each is written backwards, so that a length is
//! known when it is written, and turned once.
#![tactic(auto, using(ber_tree::proofs::Extending::extending))]

ghost use Rattle.std.specs.Prelude.{ℕ, ℤ, List, [], ◌≡◌, ◌≤◌, ◌++◌, length, OnErr, OnOk, Option, None, Some, true};
ghost use Rattle.std.specs.Prelude.{reverse};
ghost use Rattle.std.specs.Option.{option_copied};
ghost use Rattle.ber_tree.specs.Writing.{Extends};
ghost use Rattle.term_values.specs.Der.{encoded, written};
ghost use Rattle.term_values.specs.Octets.{octets};
ghost use Rattle.term_values.specs.Tag.{universal};
ghost use Rattle.term_model.specs.ApduWriting.{any_octets, apdu_octets, invoke_apdu, linked_octets, result_octets};
ghost use Rattle.term_model.specs.RemoteOperation.{empty_result_apdu, error_apdu, frame, integer, reject_apdu};
ghost use Rattle.term_model.specs.RemoteOperation.{rejected_id, result_apdu};

use crate::apdu_reading::{ERROR, INVOKE, REJECT, RESULT};
use crate::framer::LENGTH_OCTETS;
use crate::parts::LINKED_ID;
use ber_tree::tree_writing::{reverse_from, write_header_backwards, write_tree};
use ber_tree::value_writing::{write_integer_backwards, write_value_backwards};
use byteorder::{BigEndian, ByteOrder};
use std::alloc::AllocError;
use term_model::Apdu;
use term_values::{Tag, Tree};

/// How many numbers the octets of a length hold.
const LENGTHS: usize = 4_294_967_296;

/// Appends the identifier and length octets of the constructed value whose contents stand behind the place `start`, all
/// with the last octet first.
pub fn close_value(tag: Tag, start: usize, into: &mut Vec<u8>) -> Result<(), AllocError>
    requires { start ≤ length into.old.items }
    ensures written { OnOk result ((before contents : List ℕ) → start ≡ length before
        → into.old.items ≡ before ++ reverse contents
        → into.new.items ≡ before ++ reverse (encoded true tag contents)) }
    ensures begun { Extends into.old.items into.new.items }
{
    let size = into.as_slice().len() - start;
    write_header_backwards(true, tag, size, into)?;
    Ok(())
}

/// Appends the length of a frame, the last octet first.
fn write_frame_length(size: usize, into: &mut Vec<u8>) -> Result<(), AllocError>
    ensures written { OnOk result (into.new.items ≡ into.old.items ++ reverse (octets 4 size)) }
    ensures begun { Extends into.old.items into.new.items }
{
    let start = into.as_slice().len();
    let mut octets = [0; LENGTH_OCTETS];
    BigEndian::write_u32(&mut octets, (size % LENGTHS) as u32);
    into.extend_from_slice(&octets)?;
    reverse_from(start, into);
    Ok(())
}

/// Appends the length of the frame whose APDU stands behind the place `start`, all with the last octet first.
pub fn close_frame(start: usize, into: &mut Vec<u8>) -> Result<(), AllocError>
    requires { start ≤ length into.old.items }
    ensures written { OnOk result ((before apdu : List ℕ) → start ≡ length before
        → into.old.items ≡ before ++ reverse apdu → into.new.items ≡ before ++ reverse (frame apdu)) }
    ensures begun { Extends into.old.items into.new.items }
{
    let size = into.as_slice().len() - start;
    write_frame_length(size, into)?;
    Ok(())
}

/// Appends a tree, the last octet first.
fn write_tree_turned(tree: &Tree, into: &mut Vec<u8>) -> Result<(), AllocError>
    ensures written { OnOk result (into.new.items ≡ into.old.items ++ reverse (written tree.now)) }
    ensures begun { Extends into.old.items into.new.items }
{
    let start = into.as_slice().len();
    write_tree(tree, into)?;
    reverse_from(start, into);
    Ok(())
}

/// Appends what is of any type, where it is there, the last octet first.
fn write_any(tree: &Option<Tree>, into: &mut Vec<u8>) -> Result<(), AllocError>
    ensures written { OnOk result (into.new.items ≡ into.old.items ++ reverse (any_octets tree.now)) }
    ensures begun { Extends into.old.items into.new.items }
{
    match tree {
        None => Ok(()),
        Some(tree) => write_tree_turned(tree, into),
    }
}

/// Appends a linked id, where there is one, the last octet first.
fn write_linked(linked: Option<i32>, into: &mut Vec<u8>) -> Result<(), AllocError>
    ensures written { OnOk result (into.new.items ≡ into.old.items ++ reverse (linked_octets linked)) }
    ensures begun { Extends into.old.items into.new.items }
{
    match linked {
        None => Ok(()),
        Some(id) => write_integer_backwards(LINKED_ID, i64::from(id), into),
    }
}

/// Appends an Invoke, the last octet first.
fn write_invoke(
    id: i32,
    linked: Option<i32>,
    op: i64,
    argument: &Option<Tree>,
    into: &mut Vec<u8>,
) -> Result<(), AllocError>
    ensures written { OnOk result
        (into.new.items ≡ into.old.items ++ reverse (invoke_apdu id linked op (any_octets argument.now))) }
    ensures begun { Extends into.old.items into.new.items }
{
    let start = into.as_slice().len();
    write_any(argument, into)?;
    write_integer_backwards(Tag::INTEGER, op, into)?;
    write_linked(linked, into)?;
    write_integer_backwards(Tag::INTEGER, i64::from(id), into)?;
    close_value(INVOKE, start, into)?;
    Ok(())
}

/// Appends the operation of a Result with its value, the last octet first.
fn write_result_body(op: i64, value: &Tree, into: &mut Vec<u8>) -> Result<(), AllocError>
    ensures written { OnOk result (into.new.items
        ≡ into.old.items ++ reverse (encoded true (universal 16) (integer op ++ written value.now))) }
    ensures begun { Extends into.old.items into.new.items }
{
    let start = into.as_slice().len();
    write_tree_turned(value, into)?;
    write_integer_backwards(Tag::INTEGER, op, into)?;
    close_value(Tag::SEQUENCE, start, into)?;
    Ok(())
}

/// Appends a Result with an operation and a value, the last octet first.
fn write_full_result(id: i32, op: i64, value: &Tree, into: &mut Vec<u8>) -> Result<(), AllocError>
    ensures written { OnOk result
        (into.new.items ≡ into.old.items ++ reverse (result_apdu id op (written value.now))) }
    ensures begun { Extends into.old.items into.new.items }
{
    let start = into.as_slice().len();
    write_result_body(op, value, into)?;
    write_integer_backwards(Tag::INTEGER, i64::from(id), into)?;
    close_value(RESULT, start, into)?;
    Ok(())
}

/// Appends a Result with the invoke id alone, the last octet first.
fn write_empty_result(id: i32, into: &mut Vec<u8>) -> Result<(), AllocError>
    ensures written { OnOk result (into.new.items ≡ into.old.items ++ reverse (empty_result_apdu id)) }
    ensures begun { Extends into.old.items into.new.items }
{
    let start = into.as_slice().len();
    write_integer_backwards(Tag::INTEGER, i64::from(id), into)?;
    close_value(RESULT, start, into)?;
    Ok(())
}

/// Appends a Result, the last octet first.
fn write_result(
    id: i32,
    op: Option<i64>,
    value: &Option<Tree>,
    into: &mut Vec<u8>,
) -> Result<(), AllocError>
    ensures written { OnOk result (into.new.items ≡ into.old.items ++ reverse (result_octets id op value.now)) }
    ensures begun { Extends into.old.items into.new.items }
{
    match (op, value) {
        (Some(op), Some(value)) => write_full_result(id, op, value, into),
        (Some(_), None) => write_empty_result(id, into),
        (None, _) => write_empty_result(id, into),
    }
}

/// Appends an Error, the last octet first.
fn write_error(
    id: i32,
    error: i64,
    parameter: &Option<Tree>,
    into: &mut Vec<u8>,
) -> Result<(), AllocError>
    ensures written { OnOk result
        (into.new.items ≡ into.old.items ++ reverse (error_apdu id error (any_octets parameter.now))) }
    ensures begun { Extends into.old.items into.new.items }
{
    let start = into.as_slice().len();
    write_any(parameter, into)?;
    write_integer_backwards(Tag::INTEGER, error, into)?;
    write_integer_backwards(Tag::INTEGER, i64::from(id), into)?;
    close_value(ERROR, start, into)?;
    Ok(())
}

/// Appends the invoke id of what is rejected, or NULL, the last octet first.
fn write_rejected(id: Option<i32>, into: &mut Vec<u8>) -> Result<(), AllocError>
    ensures written { OnOk result (into.new.items ≡ into.old.items ++ reverse (rejected_id id)) }
    ensures begun { Extends into.old.items into.new.items }
{
    match id {
        None => write_value_backwards(false, Tag::NULL, &[], into),
        Some(id) => write_integer_backwards(Tag::INTEGER, i64::from(id), into),
    }
}

/// Appends a Reject, the last octet first.
fn write_reject(
    id: Option<i32>,
    class: u8,
    problem: i64,
    into: &mut Vec<u8>,
) -> Result<(), AllocError>
    ensures written { OnOk result (into.new.items ≡ into.old.items ++ reverse (reject_apdu id class problem)) }
    ensures begun { Extends into.old.items into.new.items }
{
    let start = into.as_slice().len();
    write_integer_backwards(Tag::context(u32::from(class)), problem, into)?;
    write_rejected(id, into)?;
    close_value(REJECT, start, into)?;
    Ok(())
}

/// Appends an APDU, the last octet first.
fn write_backwards(apdu: &Apdu, into: &mut Vec<u8>) -> Result<(), AllocError>
    ensures written { OnOk result (into.new.items ≡ into.old.items ++ reverse (apdu_octets apdu.now)) }
    ensures begun { Extends into.old.items into.new.items }
{
    match apdu {
        Apdu::Invoke {
            id,
            linked,
            op,
            argument,
        } => write_invoke(*id, *linked, *op, argument, into),
        Apdu::Result { id, op, value } => write_result(*id, *op, value, into),
        Apdu::Error {
            id,
            error,
            parameter,
        } => write_error(*id, *error, parameter, into),
        Apdu::Reject { id, class, problem } => write_reject(*id, *class, *problem, into),
    }
}

/// Appends an APDU in its frame, the last octet first.
fn write_frame_backwards(apdu: &Apdu, into: &mut Vec<u8>) -> Result<(), AllocError>
    ensures written { OnOk result (into.new.items ≡ into.old.items ++ reverse (frame (apdu_octets apdu.now))) }
    ensures begun { Extends into.old.items into.new.items }
{
    let start = into.as_slice().len();
    write_backwards(apdu, into)?;
    close_frame(start, into)?;
    Ok(())
}

/// Appends the frame of an APDU: four octets of length, and the one written form. A Result without an operation or
/// without a value is written with its id alone. After want of memory `into` is as it was.
pub fn write_apdu(apdu: &Apdu, into: &mut Vec<u8>) -> Result<(), AllocError>
    ensures written { OnOk result (into.new.items ≡ into.old.items ++ frame (apdu_octets apdu.now)) }
    ensures kept { OnErr result (into.new.items ≡ into.old.items) }
{
    let start = into.as_slice().len();
    match write_frame_backwards(apdu, into) {
        Ok(()) => {
            reverse_from(start, into);
            Ok(())
        }
        Err(fault) => {
            into.truncate(start);
            Err(fault)
        }
    }
}
