//! Reading a source to its end, up to a limit.
ghost use Rattle.std.specs.Prelude.{◌≡◌, ◌≢◌, ◌<◌, ◌≤◌, Err, IfOk, IfSome, length, vec_len};
ghost use Rattle.agent_bytes.specs.Faults.{Rose};

use crate::failed::FileRefusal;
use crate::source::Source;
use std::alloc::Global;

/// The most bytes that one turn of reading takes.
const TURN: usize = 8192;

/// All bytes that are left in `source`, if there are at most `limit`. It is read in turns, up to
/// the first that fails or passes the limit.
pub fn read_up_to<S: Source>(
    source: &mut S,
    alloc: Global,
    limit: u64,
) -> Result<Vec<u8>, FileRefusal>
    ensures read { IfOk result (λ bytes. IfSome (S.left source.old) (λ left.
        bytes.items ≡ left)) }
    ensures within { IfOk result (λ bytes. vec_len bytes ≤ limit) }
    ensures too_large { result ≡ Err FileRefusal.TooLarge →
        IfSome (S.left source.old) (λ left. limit < length left) }

    // The fault is counted, and there is no other.
    ensures failed { result ≡ Err FileRefusal.Failed →
        Rose (S.faults source.old) (S.faults source.new) }
    ensures quiet { result ≢ Err FileRefusal.Failed → S.faults source.new ≡ S.faults source.old }
    ensures counted { S.faults source.old ≤ S.faults source.new }
{
    let mut bytes = Vec::new(alloc);
    let mut turn = [0u8; TURN];
    for _ in 0..u64::MAX {
        let count = match source.read(&mut turn) {
            Ok(count) => count,
            Err(_) => return Err(FileRefusal::Failed),
        };
        if count == 0 {
            return Ok(bytes);
        }
        if count as u64 > limit - bytes.len() as u64 {
            return Err(FileRefusal::TooLarge);
        }
        if bytes.extend_from_slice(&turn[..count]).is_err() {
            return Err(FileRefusal::Memory);
        }
    }
    // No memory holds the bytes of so many turns.
    Err(FileRefusal::Memory)
}
