//! Replies: X.711, sections 7 and 8.

use term_values::Bytes;

/// noSuchObjectInstance: X.711, section 7.5.
pub const NO_SUCH_OBJECT_INSTANCE: i64 = 1;

/// invalidObjectInstance: X.711, section 7.5.
pub const INVALID_OBJECT_INSTANCE: i64 = 17;

/// An error of CMIP.
#[derive(Drop)]
pub struct CmisError {
    /// The number of the error.
    pub code: i64,
    /// The written encoding of the parameter.
    pub parameter: Option<Bytes>,
}

/// What is answered to a request.
#[derive(Drop)]
pub enum Reply {
    /// The written encoding of the result.
    Single(Bytes),
    /// A linked reply: its number in LinkedReply, and the contents octets of what stands under it.
    Linked(u8, Bytes),
    /// A result without contents, which ends linked replies.
    Empty,
    /// The error in place of a result.
    Error(CmisError),
}
