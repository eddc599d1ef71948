//! What the creation of an object is asked for with: X.711, section 7.4, m-Create.

use term_model::{Givens, IdRef, Instance};
use term_values::Bytes;

/// What is asked for. Contracts see it through `asking_view`.
#[derive(Drop)]
pub struct Asking {
    /// The class.
    pub class: IdRef,
    /// The octets of the name as it came, which errors give back.
    pub instance: Bytes,
    /// The object whose values are taken over, where there is one.
    pub reference: Option<Instance>,
    /// The list of values.
    pub given: Givens,
    /// Whether a manager asks, who needs a CREATE clause.
    pub clause: bool,
}
