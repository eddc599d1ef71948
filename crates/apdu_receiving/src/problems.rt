//! The problems for which the agent rejects an APDU: X.229, section 9, type Problem.

/// GeneralProblem: the class of the problems of what isn't known to be an APDU of some kind.
pub const GENERAL_PROBLEM: u8 = 0;

/// InvokeProblem: the class of the problems of an Invoke.
pub const INVOKE_PROBLEM: u8 = 1;

/// The general problem unrecognizedAPDU: the tag isn't that of an APDU.
pub const UNRECOGNISED_APDU: i64 = 0;

/// The general problem mistypedAPDU: the fields aren't those of the APDU.
pub const MISTYPED_APDU: i64 = 1;

/// The general problem badlyStructuredAPDU: the octets aren't one well-formed value.
pub const BADLY_STRUCTURED_APDU: i64 = 2;

/// The problem of an Invoke duplicateInvocation: the invoke id is in use.
pub const DUPLICATE_INVOCATION: i64 = 0;

/// The problem of an Invoke unrecognizedOperation: the operation isn't one of those that a manager invokes.
pub const UNRECOGNISED_OPERATION: i64 = 1;

/// The problem of an Invoke mistypedArgument: the argument is missing, or isn't one of the operation.
pub const MISTYPED_ARGUMENT: i64 = 2;
