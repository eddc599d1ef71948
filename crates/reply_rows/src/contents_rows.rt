//! What stands in results and linked replies. Each is of the moment 0.

use crate::names;
use crate::parts::{attributes, get_statuses, id_ref, reason, set_statuses};
use lending::lend;
use result_contents::Contents;
use result_contents::failures::failure_contents;
use result_contents::results::{
    action_contents, action_error_contents, attributes_contents, get_list_contents, plain_contents,
    set_list_contents,
};
use row_arguments::{RowFault, reading};
use std::alloc::Global;
use term_model::{ActionReply, Name, Rdn};
use term_values::Oid;

/// The moment 0.
pub const TIME: &[u8] = b"19700101000000Z";

/// An action and the octets of its reply, or `none`.
fn reply(alloc: Global, text: &str) -> Result<Option<ActionReply>, RowFault> {
    match text.split_once('=') {
        Some((action, info)) => {
            let action = reading::oid(alloc, action)?;
            let info = reading::bytes(alloc, info)?;
            Ok(Some(ActionReply { action, info }))
        }
        None => Ok(None),
    }
}

/// The attributes of an object.
fn with_attributes(
    alloc: Global,
    class: &Oid,
    name: &[Rdn],
    text: &str,
) -> Result<Contents, RowFault> {
    let held = attributes(alloc, text)?;
    Ok(attributes_contents(alloc, class, name, TIME, &held)?)
}

/// What an action of an object replies.
fn with_reply(alloc: Global, class: &Oid, name: &[Rdn], text: &str) -> Result<Contents, RowFault> {
    Ok(lend(reply(alloc, text)?, |reply| {
        action_contents(alloc, class, name, TIME, reply)
    })?)
}

/// What an object's reply holds behind class, instance and time.
fn told(
    alloc: Global,
    kind: &str,
    class: &Oid,
    name: &Name,
    text: &str,
) -> Result<Contents, RowFault> {
    let name = name.parts.as_slice();
    match kind {
        "attributes" => with_attributes(alloc, class, name, text),
        "action" => with_reply(alloc, class, name, text),
        "plain" => Ok(plain_contents(alloc, class, name, TIME)?),
        _ => failed(alloc, kind, class, name, text),
    }
}

/// A getListError.
fn get_list(alloc: Global, class: &Oid, name: &[Rdn], text: &str) -> Result<Contents, RowFault> {
    let statuses = get_statuses(alloc, text)?;
    Ok(get_list_contents(alloc, class, name, TIME, &statuses)?)
}

/// A setListError.
fn set_list(alloc: Global, class: &Oid, name: &[Rdn], text: &str) -> Result<Contents, RowFault> {
    let statuses = set_statuses(alloc, text)?;
    Ok(set_list_contents(alloc, class, name, TIME, &statuses)?)
}

/// An actionError of a status and an action.
fn action_error(
    alloc: Global,
    class: &Oid,
    name: &[Rdn],
    text: &str,
) -> Result<Contents, RowFault> {
    let (status, action) = reading::word(text);
    let status = reading::integer(status)?;
    Ok(lend(id_ref(alloc, action)?, |action| {
        action_error_contents(alloc, class, name, TIME, status, action)
    })?)
}

/// The errors of one object.
fn failed(
    alloc: Global,
    kind: &str,
    class: &Oid,
    name: &[Rdn],
    text: &str,
) -> Result<Contents, RowFault> {
    match kind {
        "get_list" => get_list(alloc, class, name, text),
        "set_list" => set_list(alloc, class, name, text),
        "action_error" => action_error(alloc, class, name, text),
        _ => Err(RowFault::Call),
    }
}

/// A processingFailure: class, octets of the instance and reason.
fn failure(alloc: Global, text: &str) -> Result<Contents, RowFault> {
    let (class, instance, why) = reading::three(text)?;
    let class = id_ref(alloc, class)?;
    let instance = reading::octets(alloc, instance)?;
    Ok(failure_contents(alloc, &class, &instance, reason(why)?)?)
}

/// The contents that a text says: a kind, a class, a name, and what the kind takes.
pub fn contents(alloc: Global, text: &str) -> Result<Contents, RowFault> {
    let (kind, rest) = reading::word(text);
    if kind == "failure" {
        return failure(alloc, rest);
    }
    let (class, name, rest) = reading::three(rest)?;
    let class = reading::oid(alloc, class)?;
    let name = names::name(alloc, name)?;
    told(alloc, kind, &class, &name, rest)
}
