//! Rows of frames.

use crate::contents_rows::{TIME, contents};
use crate::error_rows::error;
use crate::names;
use cmip_replies::{write_event, write_reject, write_reply};
use lending::lend;
use row_arguments::showing::show_octets;
use row_arguments::{RowFault, reading};
use std::alloc::{AllocError, Global};
use term_model::{CmisError, Event, Reply};
use term_values::Bytes;

/// The operation and the own invoke id of a reply that has none.
const NONE: i64 = 0;

/// How many classes of problems there are.
const CLASSES: u8 = 4;

/// The frame of a reply.
fn reply_frame(
    alloc: Global,
    reply: &Reply,
    op: i64,
    id: i32,
    own: i32,
) -> Result<Vec<u8>, AllocError> {
    let mut frame = Vec::new(alloc);
    write_reply(reply, op, id, own, &mut frame)?;
    Ok(frame)
}

/// Appends the frame of a reply.
fn show_reply(
    alloc: Global,
    reply: Reply,
    op: i64,
    id: i32,
    own: i32,
    out: &mut String,
) -> Result<(), AllocError> {
    let frame = lend(reply, |reply| reply_frame(alloc, reply, op, id, own))?;
    show_octets(&frame, out)
}

/// A result: the operation, the invoke id and the contents.
pub fn single_row(alloc: Global, text: &str, out: &mut String) -> Result<(), RowFault> {
    let (op, id, text) = reading::three(text)?;
    let (op, id) = (reading::integer(op)?, reading::id(id)?);
    let reply = contents(alloc, text)?.single()?;
    Ok(show_reply(alloc, reply, op, id, 0, out)?)
}

/// A linked reply: the invoke id, the own one, the number in LinkedReply and the contents.
pub fn linked_row(alloc: Global, text: &str, out: &mut String) -> Result<(), RowFault> {
    let (id, own, rest) = reading::three(text)?;
    let (number, text) = reading::two(rest)?;
    let (id, own) = (reading::id(id)?, reading::id(own)?);
    let reply = contents(alloc, text)?.linked(reading::octet(number)?);
    Ok(show_reply(alloc, reply, NONE, id, own, out)?)
}

/// A result with an invoke id alone.
pub fn empty_row(alloc: Global, text: &str, out: &mut String) -> Result<(), RowFault> {
    let id = reading::id(text)?;
    Ok(show_reply(alloc, Reply::Empty, NONE, id, 0, out)?)
}

/// An error: the invoke id and the error.
pub fn error_row(alloc: Global, text: &str, out: &mut String) -> Result<(), RowFault> {
    let (id, text) = reading::two(text)?;
    let id = reading::id(id)?;
    let reply = Reply::Error(error(alloc, text)?);
    Ok(show_reply(alloc, reply, NONE, id, 0, out)?)
}

/// The octets of a parameter, or `none`.
fn parameter(alloc: Global, text: &str) -> Result<Option<Bytes>, RowFault> {
    if text.trim() == "none" {
        return Ok(None);
    }
    Ok(Some(reading::bytes(alloc, text)?))
}

/// A result of an operation, an invoke id and octets.
fn result_row(
    alloc: Global,
    op: &str,
    id: &str,
    octets: &str,
    out: &mut String,
) -> Result<(), RowFault> {
    let (op, id) = (reading::integer(op)?, reading::id(id)?);
    let reply = Reply::Single(reading::bytes(alloc, octets)?);
    Ok(show_reply(alloc, reply, op, id, 0, out)?)
}

/// What stands in these octets: `result` with an operation, an invoke id and octets, or `error` with an invoke id, a
/// number and the octets of the parameter or `none`.
pub fn octets_row(alloc: Global, text: &str, out: &mut String) -> Result<(), RowFault> {
    let (kind, text) = reading::word(text);
    let (first, second, octets) = reading::three(text)?;
    if kind == "result" {
        return result_row(alloc, first, second, octets, out);
    }
    let (id, code) = (reading::id(first)?, reading::integer(second)?);
    let parameter = parameter(alloc, octets)?;
    let reply = Reply::Error(CmisError { code, parameter });
    Ok(show_reply(alloc, reply, NONE, id, 0, out)?)
}

/// The event of a class, a name, an event type, and the octets of its information or `none`.
fn event(alloc: Global, text: &str) -> Result<Event, RowFault> {
    let (class, name, rest) = reading::three(text)?;
    let (kind, info) = reading::two(rest)?;
    let class = reading::oid(alloc, class)?;
    let name = names::name(alloc, name)?;
    let kind = reading::oid(alloc, kind)?;
    let time = Bytes::from_slice(alloc, TIME)?;
    let info = parameter(alloc, info)?;
    Ok(Event {
        class,
        name,
        kind,
        time,
        info,
    })
}

/// The frame of an event report.
fn event_frame(alloc: Global, event: &Event, own: i32) -> Result<Vec<u8>, AllocError> {
    let mut frame = Vec::new(alloc);
    write_event(event, own, &mut frame)?;
    Ok(frame)
}

/// An event report: the own invoke id and the event.
pub fn event_row(alloc: Global, text: &str, out: &mut String) -> Result<(), RowFault> {
    let (own, text) = reading::two(text)?;
    let own = reading::id(own)?;
    let frame = lend(event(alloc, text)?, |event| event_frame(alloc, event, own))?;
    Ok(show_octets(&frame, out)?)
}

/// An invoke id, or `none`.
fn rejected(text: &str) -> Result<Option<i32>, RowFault> {
    if text.trim() == "none" {
        return Ok(None);
    }
    Ok(Some(reading::id(text)?))
}

/// A reject: an invoke id or `none`, the class of the problem and its number.
pub fn reject_row(alloc: Global, text: &str, out: &mut String) -> Result<(), RowFault> {
    let (id, class, problem) = reading::three(text)?;
    let (id, class) = (rejected(id)?, reading::octet(class)?);
    let problem = reading::integer(problem)?;
    if class >= CLASSES {
        return Err(RowFault::Number);
    }
    let mut frame = Vec::new(alloc);
    write_reject(id, class, problem, &mut frame)?;
    Ok(show_octets(&frame, out)?)
}
