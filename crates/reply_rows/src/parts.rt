//! Identifiers, attributes, errors in lists, and reasons.

use row_arguments::{RowFault, reading};
use std::alloc::Global;
use term_model::{AttributeValue, FailureReason, GetInfoStatus, IdRef, SetInfoStatus};
use term_values::Oid;

/// An identifier in globalForm, or `local` and its number.
pub fn id_ref(alloc: Global, text: &str) -> Result<IdRef, RowFault> {
    match reading::word(text) {
        ("local", number) => Ok(IdRef::Local(reading::integer(number)?)),
        _ => Ok(IdRef::Global(reading::oid(alloc, text)?)),
    }
}

/// An attribute, an equals sign and its value's octets.
fn attribute(alloc: Global, text: &str) -> Result<AttributeValue, RowFault> {
    match text.split_once('=') {
        Some((id, value)) => {
            let id = reading::oid(alloc, id)?;
            let value = reading::bytes(alloc, value)?;
            Ok(AttributeValue { id, value })
        }
        None => Err(RowFault::Arguments),
    }
}

/// Attributes, or `none`.
pub fn attributes(alloc: Global, text: &str) -> Result<Vec<AttributeValue>, RowFault> {
    let mut found = Vec::new(alloc);
    for text in text.split(',') {
        if text.trim() != "none" {
            found.push(attribute(alloc, text)?)?;
        }
    }
    Ok(found)
}

/// An attribute with its value, or a status and an identifier.
fn get_status(alloc: Global, text: &str) -> Result<GetInfoStatus, RowFault> {
    if text.contains('=') {
        return Ok(GetInfoStatus::Attribute(attribute(alloc, text)?));
    }
    let (status, id) = reading::word(text);
    let status = reading::integer(status)?;
    let id = id_ref(alloc, id)?;
    Ok(GetInfoStatus::Error { status, id })
}

/// Each attribute and each error of a getListError.
pub fn get_statuses(alloc: Global, text: &str) -> Result<Vec<GetInfoStatus>, RowFault> {
    let mut found = Vec::new(alloc);
    for text in text.split(',') {
        found.push(get_status(alloc, text)?)?;
    }
    Ok(found)
}

/// An attribute with its value, or a status, an operator and an identifier.
fn set_status(alloc: Global, text: &str) -> Result<SetInfoStatus, RowFault> {
    if text.contains('=') {
        return Ok(SetInfoStatus::Attribute(attribute(alloc, text)?));
    }
    let (status, rest) = reading::word(text);
    let (operator, id) = reading::word(rest);
    let (status, operator) = (reading::integer(status)?, reading::integer(operator)?);
    let id = id_ref(alloc, id)?;
    Ok(SetInfoStatus::Error {
        status,
        operator,
        id,
    })
}

/// Each attribute and each error of a setListError.
pub fn set_statuses(alloc: Global, text: &str) -> Result<Vec<SetInfoStatus>, RowFault> {
    let mut found = Vec::new(alloc);
    for text in text.split(',') {
        found.push(set_status(alloc, text)?)?;
    }
    Ok(found)
}

/// Identifiers.
pub fn oids(alloc: Global, text: &str) -> Result<Vec<Oid>, RowFault> {
    let mut found = Vec::new(alloc);
    for text in text.split(',') {
        found.push(reading::oid(alloc, text)?)?;
    }
    Ok(found)
}

/// The reason of a processingFailure.
pub fn reason(text: &str) -> Result<FailureReason, RowFault> {
    match text.trim() {
        "contained" => Ok(FailureReason::Contained),
        "notDeletable" => Ok(FailureReason::NotDeletable),
        "notCreatable" => Ok(FailureReason::NotCreatable),
        "limit" => Ok(FailureReason::Limit),
        "rule" => Ok(FailureReason::Rule),
        _ => Err(RowFault::Call),
    }
}
