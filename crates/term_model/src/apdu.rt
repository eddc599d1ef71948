//! The APDUs of remote operations: X.229, section 9.

use term_values::Tree;

/// An APDU of remote operations. An id is within 32 bits, another number within 64.
#[derive(Drop)]
pub enum Apdu {
    /// ROIV: an operation is invoked.
    Invoke {
        /// The invoke id.
        id: i32,
        /// The invoke id of the operation to which this one is linked.
        linked: Option<i32>,
        /// The number of the operation.
        op: i64,
        /// The argument, undecoded.
        argument: Option<Tree>,
    },
    /// RORS: the result of an operation. The operation and the value are there together or not at all.
    Result {
        /// The invoke id.
        id: i32,
        /// The number of the operation.
        op: Option<i64>,
        /// The value, undecoded.
        value: Option<Tree>,
    },
    /// ROER: the error of an operation.
    Error {
        /// The invoke id.
        id: i32,
        /// The number of the error.
        error: i64,
        /// The parameter, undecoded.
        parameter: Option<Tree>,
    },
    /// RORJ: an APDU is rejected.
    Reject {
        /// The invoke id, where one is known.
        id: Option<i32>,
        /// The kind of the problem: 0 general, 1 of an invoke, 2 of a result, 3 of an error.
        class: u8,
        /// The number of the problem.
        problem: i64,
    },
}
