//! What results, list errors and failures tell: X.711, section 7.5.

use crate::request::IdRef;
use term_values::{Bytes, Oid};

/// An attribute with its value: X.711, type Attribute.
#[derive(Drop)]
pub struct AttributeValue {
    /// The attribute.
    pub id: Oid,
    /// The written encoding of its value.
    pub value: Bytes,
}

/// What a getListError tells of an attribute: X.711, type GetInfoStatus.
#[derive(Drop)]
pub enum GetInfoStatus {
    /// It is not given.
    Error {
        /// The number of the error.
        status: i64,
        /// The attribute as the request named it.
        id: IdRef,
    },
    /// Its value.
    Attribute(AttributeValue),
}

/// What a setListError tells of a modification or of an attribute: X.711, type SetInfoStatus.
#[derive(Drop)]
pub enum SetInfoStatus {
    /// The modification failed.
    Error {
        /// The number of the error.
        status: i64,
        /// The modification's operator.
        operator: i64,
        /// The attribute as the request named it.
        id: IdRef,
    },
    /// The attribute has this value.
    Attribute(AttributeValue),
}

/// What an action replied: X.711, type ActionReply.
#[derive(Drop)]
pub struct ActionReply {
    /// The action.
    pub action: Oid,
    /// The written encoding of its reply.
    pub info: Bytes,
}

/// Why an operation that is otherwise in order can't be done: the reasons of a processingFailure.
#[derive(Clone, Copy, Debug, PartialEq, Eq)]
pub enum FailureReason {
    /// Objects stand below the one to delete.
    Contained,
    /// The object is not one that managers may delete.
    NotDeletable,
    /// The object is not one that managers may create.
    NotCreatable,
    /// An object would be too long, or there are too many.
    Limit,
    /// A rule of an action came to a value that may not stand.
    Rule,
}
