//! The errors of CMIP by their names.

use crate::contents_rows::contents;
use crate::parts::{id_ref, oids, reason};
use lending::lend;
use result_contents::error_codes::{GET_LIST_ERROR, SET_LIST_ERROR};
use result_contents::errors;
use row_arguments::{RowFault, reading};
use std::alloc::Global;
use term_model::{CmisError, IdRef, Scope};

/// An error of an identifier; none where it is another one.
fn of_id(alloc: Global, call: &str, id: &IdRef) -> Result<Option<CmisError>, RowFault> {
    let error = match call {
        "noSuchObjectClass" => errors::no_such_object_class(alloc, id),
        "noSuchAttribute" => errors::no_such_attribute(alloc, id),
        "noSuchAction" => errors::no_such_action(alloc, id),
        "noSuchEventType" => errors::no_such_event_type(alloc, id),
        "noSuchActionArgument" => errors::no_such_action_argument(alloc, id),
        "noSuchEventArgument" => errors::no_such_event_argument(alloc, id),
        "invalidActionArgument" => errors::invalid_action_argument(alloc, id),
        "invalidEventArgument" => errors::invalid_event_argument(alloc, id),
        _ => return Ok(None),
    };
    Ok(Some(error?))
}

/// An error of octets; none where it is another one.
fn of_octets(alloc: Global, call: &str, octets: &[u8]) -> Result<Option<CmisError>, RowFault> {
    let error = match call {
        "noSuchObjectInstance" => errors::no_such_instance(alloc, octets),
        "duplicateManagedObjectInstance" => errors::duplicate_instance(alloc, octets),
        "noSuchReferenceObject" => errors::no_such_reference(alloc, octets),
        "invalidObjectInstance" => errors::invalid_instance(alloc, octets),
        "invalidFilter" => errors::invalid_filter(alloc, octets),
        _ => return Ok(None),
    };
    Ok(Some(error?))
}

/// An error without a parameter; none where it is another one.
fn plain(call: &str) -> Option<CmisError> {
    match call {
        "accessDenied" => Some(errors::access_denied()),
        "complexityLimitation" => Some(errors::complexity_limitation()),
        "mistypedOperation" => Some(errors::mistyped_operation()),
        "operationCancelled" => Some(errors::operation_cancelled()),
        _ => None,
    }
}

/// The scope of a kind and a number.
fn scope(text: &str) -> Result<Scope, RowFault> {
    let (kind, number) = reading::word(text);
    let number = reading::integer(number)?;
    match kind {
        "plain" => Ok(Scope::Plain(number)),
        "level" => Ok(Scope::Level(number)),
        "upto" => Ok(Scope::Upto(number)),
        _ => Err(RowFault::Call),
    }
}

/// A number of CMISSync.
fn sync(alloc: Global, text: &str) -> Result<CmisError, RowFault> {
    Ok(errors::sync_not_supported(alloc, reading::integer(text)?)?)
}

/// A number that no operation has.
fn invoke_id(alloc: Global, text: &str) -> Result<CmisError, RowFault> {
    Ok(errors::no_such_invoke_id(alloc, reading::integer(text)?)?)
}

/// A scope.
fn bad_scope(alloc: Global, text: &str) -> Result<CmisError, RowFault> {
    Ok(errors::invalid_scope(alloc, scope(text)?)?)
}

/// An attribute and octets.
fn bad_value(alloc: Global, text: &str) -> Result<CmisError, RowFault> {
    let (id, octets) = reading::two(text)?;
    let id = id_ref(alloc, id)?;
    let octets = reading::octets(alloc, octets)?;
    Ok(errors::invalid_attribute_value(alloc, &id, &octets)?)
}

/// A class and an instance.
fn conflict(alloc: Global, text: &str) -> Result<CmisError, RowFault> {
    let (class, instance) = reading::two(text)?;
    let class = id_ref(alloc, class)?;
    let instance = reading::octets(alloc, instance)?;
    Ok(errors::class_instance_conflict(alloc, &class, &instance)?)
}

/// A class, an instance and a reason.
fn failure(alloc: Global, text: &str) -> Result<CmisError, RowFault> {
    let (class, instance, why) = reading::three(text)?;
    let class = id_ref(alloc, class)?;
    let instance = reading::octets(alloc, instance)?;
    let why = reason(why)?;
    Ok(errors::processing_failure(alloc, &class, &instance, why)?)
}

/// An error of the contents that a text says.
fn with_contents(alloc: Global, text: &str, code: i64) -> Result<CmisError, RowFault> {
    Ok(contents(alloc, text)?.error(code)?)
}

/// The missing attributes.
fn missing(alloc: Global, text: &str) -> Result<CmisError, RowFault> {
    let ids = oids(alloc, text)?;
    Ok(errors::missing_attribute_value(alloc, &ids)?)
}

/// An error of several parts.
fn of_parts(alloc: Global, call: &str, text: &str) -> Result<CmisError, RowFault> {
    match call {
        "syncNotSupported" => sync(alloc, text),
        "noSuchInvokeId" => invoke_id(alloc, text),
        "invalidScope" => bad_scope(alloc, text),
        "invalidAttributeValue" => bad_value(alloc, text),
        "getListError" => with_contents(alloc, text, GET_LIST_ERROR),
        "setListError" => with_contents(alloc, text, SET_LIST_ERROR),
        "classInstanceConflict" => conflict(alloc, text),
        "processingFailure" => failure(alloc, text),
        "missingAttributeValue" => missing(alloc, text),
        _ => Err(RowFault::Call),
    }
}

/// An error of an identifier that a text says.
fn id_error(alloc: Global, call: &str, text: &str) -> Result<Option<CmisError>, RowFault> {
    lend(id_ref(alloc, text), |id| match id {
        Ok(id) => of_id(alloc, call, id),
        Err(_) => Ok(None),
    })
}

/// An error of octets that a text says.
fn octets_error(alloc: Global, call: &str, text: &str) -> Result<Option<CmisError>, RowFault> {
    match reading::octets(alloc, text) {
        Ok(octets) => of_octets(alloc, call, &octets),
        Err(_) => Ok(None),
    }
}

/// The error of octets, or of several parts, that a text says.
fn other_error(alloc: Global, call: &str, text: &str) -> Result<CmisError, RowFault> {
    match octets_error(alloc, call, text)? {
        Some(error) => Ok(error),
        None => of_parts(alloc, call, text),
    }
}

/// The error with parameters that a text says.
fn full_error(alloc: Global, call: &str, text: &str) -> Result<CmisError, RowFault> {
    match id_error(alloc, call, text)? {
        Some(error) => Ok(error),
        None => other_error(alloc, call, text),
    }
}

/// The error that a text says: its name and its parts.
pub fn error(alloc: Global, text: &str) -> Result<CmisError, RowFault> {
    let (call, rest) = reading::word(text);
    match plain(call) {
        Some(error) => Ok(error),
        None => full_error(alloc, call, rest),
    }
}
