//! Linked replies of operations whose objects a scope selects, and how many octets replies have: X.711, section 7.5,
//! type LinkedReplyArgument.

ghost use Rattle.std.specs.Prelude.{◌≡◌, ◌++◌, IfOk, length};
ghost use Rattle.term_values.specs.Lengths.{counted};
ghost use Rattle.term_values.specs.Tag.{context};
ghost use Rattle.term_model.specs.declared.reply.Reply.TheVariants as reply;
ghost use Rattle.operation_model.specs.LinkedReplies.{behind_length, contents_in, linked_error, linked_reply};
ghost use Rattle.operation_model.specs.LinkedReplies.{parameter_octets, replies_size, reply_size};

use std::alloc::{AllocError, Global};
use term_model::{CmisError, Reply};
use term_values::leaf_lengths::{plus, with_header};
use term_values::tag::CONTEXT;
use term_values::{Bytes, Tag};

/// getListError, as an error and as a linked reply.
const GET_LIST_ERROR: i64 = 7;

const LINKED_GET_LIST_ERROR: u8 = 1;

/// setListError, as an error and as a linked reply.
const SET_LIST_ERROR: i64 = 8;

const LINKED_SET_LIST_ERROR: u8 = 3;

/// processingFailure, as an error and as a linked reply.
const PROCESSING_FAILURE: i64 = 10;

const LINKED_PROCESSING_FAILURE: u8 = 5;

/// The first octet of a length whose octets follow, less their number.
const LONG_LENGTH: u8 = 128;

/// What stands behind a length.
fn behind_length(octets: &[u8]) -> &[u8]
    ensures { result.now ≡ behind_length octets.now }
{
    match octets.split_first() {
        None => &[],
        Some((first, others)) => {
            if *first < LONG_LENGTH {
                return others;
            }
            let count = (*first - LONG_LENGTH) as usize;
            if count <= others.len() {
                &others[count..]
            } else {
                &[]
            }
        }
    }
}

/// The contents octets of an encoding whose identifier is one octet.
fn contents_in(octets: &[u8]) -> &[u8]
    ensures { result.now ≡ contents_in octets.now }
{
    match octets.split_first() {
        None => &[],
        Some((_, others)) => behind_length(others),
    }
}

/// A linked reply under a number, with the contents of an encoding.
fn linked(alloc: Global, number: u8, octets: &[u8]) -> Result<Reply, AllocError>
    ensures { IfOk result (λ answer. answer ≡ reply.Linked number (contents_in octets.now)) }
{
    let contents = Bytes::from_slice(alloc, contents_in(octets))?;
    Ok(Reply::Linked(number, contents))
}

/// The octets of an error's parameter; none without one.
fn parameter_octets(error: &CmisError) -> &[u8]
    ensures { result.now ≡ parameter_octets error.now }
{
    match &error.parameter {
        None => &[],
        Some(octets) => octets.as_slice(),
    }
}

/// The error of an operation on one object as a linked reply.
fn linked_error(alloc: Global, error: CmisError) -> Result<Reply, AllocError>
    ensures { IfOk result (λ answer. answer ≡ linked_error error) }
{
    let number = match error.code {
        GET_LIST_ERROR => LINKED_GET_LIST_ERROR,
        SET_LIST_ERROR => LINKED_SET_LIST_ERROR,
        PROCESSING_FAILURE => LINKED_PROCESSING_FAILURE,
        _ => return Ok(Reply::Error(error)),
    };
    linked(alloc, number, parameter_octets(&error))
}

/// What an operation on one object answers, as a linked reply; `number` is that of the operation's results.
pub(crate) fn linked_reply(alloc: Global, number: u8, answer: Reply) -> Result<Reply, AllocError>
    ensures { IfOk result (λ linked. linked ≡ linked_reply number answer) }
{
    match answer {
        Reply::Single(octets) => linked(alloc, number, octets.as_slice()),
        Reply::Error(error) => linked_error(alloc, error),
        Reply::Linked(number, contents) => Ok(Reply::Linked(number, contents)),
        Reply::Empty => Ok(Reply::Empty),
    }
}

/// The tag of a linked reply's argument.
fn linked_tag(number: u8) -> Tag
    ensures { result ≡ context number }
{
    Tag {
        class: CONTEXT,
        number: number as u32,
    }
}

/// How many octets a reply has: those of a result, of a linked reply's argument or of an error's parameter.
fn reply_size(answer: &Reply) -> u64
    ensures { result ≡ counted (reply_size answer.now) }
{
    match answer {
        Reply::Single(octets) => octets.as_slice().len() as u64,
        Reply::Linked(number, contents) => {
            let size = contents.as_slice().len() as u64;
            with_header(true, linked_tag(*number), size)
        }
        Reply::Empty => 0,
        Reply::Error(error) => parameter_octets(error).len() as u64,
    }
}

/// How many octets replies have together, or the greatest number where there are more.
pub(crate) fn replies_size(replies: &[Reply]) -> u64
    ensures { result ≡ counted (replies_size replies.now) }
{
    let mut size = 0;
    for i in (0..replies.len()).rev() {
        size = plus(reply_size(&replies[i]), size);
    }
    size
}
