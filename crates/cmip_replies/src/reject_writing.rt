//! Writes the frames of rejects: X.229, section 9.

ghost use Rattle.std.specs.Prelude.{◌≡◌, ◌++◌, ◌<◌, OnErr, OnOk};
ghost use Rattle.term_model.specs.SentApdus.{sent_reject};

use rose_frames::{Apdu, write_apdu};
use std::alloc::AllocError;

/// The class of a problem that is not one of an invoke, a result or an error.
pub const GENERAL: u8 = 0;

/// The class of a problem of an invoke.
pub const OF_INVOKE: u8 = 1;

/// Appends the frame of a Reject of what came under `id`, or under none that is known, with the class of its problem, 0
/// general, 1 of an invoke, 2 of a result, 3 of an error, and the problem's number. After want of memory `into` is as
/// it was.
pub fn write_reject(
    id: Option<i32>,
    class: u8,
    problem: i64,
    into: &mut Vec<u8>,
) -> Result<(), AllocError>
    requires { class < 4 }
    ensures written { OnOk result (into.new.items ≡ into.old.items ++ sent_reject id class problem) }
    ensures kept { OnErr result (into.new.items ≡ into.old.items) }
{
    let apdu = Apdu::Reject { id, class, problem };
    write_apdu(&apdu, into)
}
