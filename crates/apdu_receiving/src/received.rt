//! What an APDU brings.

use term_model::Invocation;

/// What an APDU of an association brings.
#[derive(Drop)]
pub enum Received {
    /// It is to be rejected: X.229, section 9, type RORJapdu. The causes, in the order in which they are tried:
    ///
    /// - general, badlyStructuredAPDU: the octets aren't one well-formed value of BER;
    /// - general, unrecognizedAPDU: the value isn't constructed under a context-specific tag from 1 to 4;
    /// - general, mistypedAPDU: a field is missing, wrong, too many or past its range;
    /// - of an invoke, unrecognizedOperation: the operation isn't one of those that a manager invokes;
    /// - of an invoke, duplicateInvocation: the invoke id is in use;
    /// - of an invoke, mistypedArgument: the argument is missing, or isn't one of the operation.
    Rejected {
        /// The invoke id of an Invoke; none with a general problem.
        id: Option<i32>,
        /// The class of the problem: 0 general, 1 of an invoke.
        class: u8,
        /// The number of the problem in its class.
        problem: i64,
    },
    /// An m-Cancel-Get: X.711, section 7.
    Cancels {
        /// Its own invoke id.
        id: i32,
        /// The invoke id of the operation that it cancels, as it came: a number of 64 bits.
        cancelled: i64,
    },
    /// Nothing: it is a Result, an Error or a Reject of the manager's.
    NoEffect,
    /// A request with its invoke id, which waits for its turn.
    Queued(Invocation),
}
