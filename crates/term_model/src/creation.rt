//! What the creation of an object states: X.711, section 7.4, m-Create.

use crate::name::Rdn;
use crate::object::{Attrs, Oids};
use crate::reply::CmisError;
use crate::request::{Givens, IdRef};
use term_values::{Bytes, Oid};

/// An object that is to be created, under a name that is given.
#[derive(Drop)]
pub struct Creation {
    /// The identifier of its class.
    pub class: Oid,
    /// The name binding by which it is named; none for the root.
    pub binding: Option<Oid>,
    /// The last part of its name.
    pub named: Rdn,
    /// The list of values that its creation gives.
    pub given: Givens,
    /// The values that it takes over from a reference object; none without one.
    pub taken: Attrs,
    /// The class as it was asked for, which errors give back.
    pub asked: IdRef,
    /// The octets of the instance, which errors give back.
    pub instance: Bytes,
}

/// What an object of a class has with the packages that its creation names.
#[derive(Drop)]
pub struct Outline {
    /// Its class is that of a bound log.
    pub bound_log: bool,
    /// The packages that the creation names.
    pub chosen: Oids,
    /// Its attributes by rising identifier.
    pub attributes: Oids,
}

/// The error of a step of a creation. Its steps are numbered in the order in which they are tried.
#[derive(Drop)]
pub struct StepError {
    /// The number of the step.
    pub step: u32,
    /// The error.
    pub error: CmisError,
}
