//! Writes the frames of replies: X.229, section 9; X.711, section 7. Each is written with its last octet first, so that
//! the length of each part is known when its header is written.
#![tactic(auto, using(ber_tree::proofs::Extending::extending))]

ghost use Rattle.std.specs.Prelude.{◌≡◌, ◌++◌, true, OnErr, OnOk, reverse};
ghost use Rattle.ber_tree.specs.Writing.{Extends};
ghost use Rattle.term_model.specs.Operation.{own_after, own_behind};
ghost use Rattle.term_model.specs.RemoteOperation.{empty_result_apdu, error_apdu, frame, integer, linked_apdu};
ghost use Rattle.term_model.specs.RemoteOperation.{result_apdu};
ghost use Rattle.term_model.specs.SentApdus.{sent_reply};
ghost use Rattle.term_values.specs.Der.{encoded};
ghost use Rattle.term_values.specs.Tag.{universal};
ghost use Rattle.cmip_replies.specs.ReplyOctets.{reply_apdu, sent_parameter};

use ber_tree::tree_writing::{reverse_from, write_backwards};
use ber_tree::value_writing::{write_integer_backwards, write_value_backwards};
use rose_frames::apdu_reading::{ERROR, INVOKE, RESULT};
use rose_frames::apdu_writing::{close_frame, close_value};
use rose_frames::parts::LINKED_ID;
use std::alloc::AllocError;
use term_model::{CmisError, Reply};
use term_values::Tag;

/// The operation m-Linked-Reply.
const M_LINKED_REPLY: i64 = 2;

/// The first and the greatest of the agent's own invoke ids.
const FIRST_OWN: i32 = 1;

const LAST_OWN: i32 = 2_147_483_647;

/// The most octets of a parameter in an Error frame; a longer one is left out.
const MOST_PARAMETER: usize = 32768;

/// Appends the operation of a Result with the result's octets, the last octet first.
fn write_result(op: i64, value: &[u8], into: &mut Vec<u8>) -> Result<(), AllocError>
    ensures written { OnOk result (into.new.items
        ≡ into.old.items ++ reverse (encoded true (universal 16) (integer op ++ value.now))) }
    ensures begun { Extends into.old.items into.new.items }
{
    let start = into.as_slice().len();
    write_backwards(value, into)?;
    write_integer_backwards(Tag::INTEGER, op, into)?;
    close_value(Tag::SEQUENCE, start, into)?;
    Ok(())
}

/// Appends the frame of a Result, the last octet first: the invoke id, the operation and the result's octets.
fn write_result_frame(id: i64, op: i64, value: &[u8], into: &mut Vec<u8>) -> Result<(), AllocError>
    ensures written { OnOk result
        (into.new.items ≡ into.old.items ++ reverse (frame (result_apdu id op value.now))) }
    ensures begun { Extends into.old.items into.new.items }
{
    let start = into.as_slice().len();
    write_result(op, value, into)?;
    write_integer_backwards(Tag::INTEGER, id, into)?;
    close_value(RESULT, start, into)?;
    close_frame(start, into)?;
    Ok(())
}

/// Appends the frame of a Result with the invoke id alone, the last octet first.
fn write_empty_frame(id: i64, into: &mut Vec<u8>) -> Result<(), AllocError>
    ensures written { OnOk result (into.new.items ≡ into.old.items ++ reverse (frame (empty_result_apdu id))) }
    ensures begun { Extends into.old.items into.new.items }
{
    let start = into.as_slice().len();
    write_integer_backwards(Tag::INTEGER, id, into)?;
    close_value(RESULT, start, into)?;
    close_frame(start, into)?;
    Ok(())
}

/// The parameter of an error as it is sent: nothing where there is none, or one that is too long.
fn sent_parameter(error: &CmisError) -> &[u8]
    ensures { result.now ≡ sent_parameter error.now.parameter }
{
    match &error.parameter {
        Some(parameter) if parameter.as_slice().len() <= MOST_PARAMETER => parameter.as_slice(),
        _ => &[],
    }
}

/// Appends the frame of an Error with this number and parameter, the last octet first.
fn write_error_frame(
    id: i64,
    code: i64,
    parameter: &[u8],
    into: &mut Vec<u8>,
) -> Result<(), AllocError>
    ensures written { OnOk result
        (into.new.items ≡ into.old.items ++ reverse (frame (error_apdu id code parameter.now))) }
    ensures begun { Extends into.old.items into.new.items }
{
    let start = into.as_slice().len();
    write_backwards(parameter, into)?;
    write_integer_backwards(Tag::INTEGER, code, into)?;
    write_integer_backwards(Tag::INTEGER, id, into)?;
    close_value(ERROR, start, into)?;
    close_frame(start, into)?;
    Ok(())
}

/// Appends the frame of a linked reply, the last octet first: the agent's own invoke id, the invoke id to which it is
/// linked, the operation, and the reply under the tag of LinkedReply with this number.
fn write_linked_frame(
    own: i64,
    id: i64,
    number: u8,
    reply: &[u8],
    into: &mut Vec<u8>,
) -> Result<(), AllocError>
    ensures written { OnOk result
        (into.new.items ≡ into.old.items ++ reverse (frame (linked_apdu own id number reply.now))) }
    ensures begun { Extends into.old.items into.new.items }
{
    let start = into.as_slice().len();
    write_value_backwards(true, Tag::context(u32::from(number)), reply, into)?;
    write_integer_backwards(Tag::INTEGER, M_LINKED_REPLY, into)?;
    write_integer_backwards(LINKED_ID, id, into)?;
    write_integer_backwards(Tag::INTEGER, own, into)?;
    close_value(INVOKE, start, into)?;
    close_frame(start, into)?;
    Ok(())
}

/// Appends the frame of a reply, the last octet first.
fn write_frame_backwards(
    reply: &Reply,
    op: i64,
    id: i64,
    own: i64,
    into: &mut Vec<u8>,
) -> Result<(), AllocError>
    ensures written { OnOk result
        (into.new.items ≡ into.old.items ++ reverse (frame (reply_apdu id op own reply.now))) }
    ensures begun { Extends into.old.items into.new.items }
{
    match reply {
        Reply::Single(value) => write_result_frame(id, op, value.as_slice(), into),
        Reply::Linked(number, contents) => {
            write_linked_frame(own, id, *number, contents.as_slice(), into)
        }
        Reply::Empty => write_empty_frame(id, into),
        Reply::Error(error) => write_error_frame(id, error.code, sent_parameter(error), into),
    }
}

/// Appends the frame of a reply. After want of memory `into` is as it was.
fn write_turned(
    reply: &Reply,
    op: i64,
    id: i64,
    own: i64,
    into: &mut Vec<u8>,
) -> Result<(), AllocError>
    ensures written { OnOk result (into.new.items ≡ into.old.items ++ frame (reply_apdu id op own reply.now)) }
    ensures kept { OnErr result (into.new.items ≡ into.old.items) }
{
    let start = into.as_slice().len();
    match write_frame_backwards(reply, op, id, own, into) {
        Ok(()) => {
            reverse_from(start, into);
            Ok(())
        }
        Err(fault) => {
            into.truncate(start);
            Err(fault)
        }
    }
}

/// Appends the frame of a reply to the operation `op` that was invoked under `id`; a linked reply has the agent's own
/// invoke id `own`. The parameter of an error is left out where it has more than 32,768 octets. The cost is linear in
/// what is appended. After want of memory `into` is as it was.
pub fn write_reply(
    reply: &Reply,
    op: i64,
    id: i32,
    own: i32,
    into: &mut Vec<u8>,
) -> Result<(), AllocError>
    ensures written { OnOk result (into.new.items ≡ into.old.items ++ sent_reply id op own reply.now) }
    ensures kept { OnErr result (into.new.items ≡ into.old.items) }
{
    write_turned(reply, op, i64::from(id), i64::from(own), into)
}

/// The own invoke id behind this one: they begin anew with 1 behind the greatest of 32 bits.
fn own_after(own: i32) -> i32
    ensures { result ≡ own_after own }
{
    if own >= 0 && own < LAST_OWN {
        own + 1
    } else {
        FIRST_OWN
    }
}

/// The next own invoke id behind a reply: a linked reply takes one.
pub fn own_behind(own: i32, reply: &Reply) -> i32
    ensures { result ≡ own_behind own reply.now }
{
    match reply {
        Reply::Linked(_, _) => own_after(own),
        Reply::Single(_) | Reply::Empty | Reply::Error(_) => own,
    }
}
