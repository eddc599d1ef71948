//! Writing all of a slice to a sink.
ghost use Rattle.std.specs.Prelude.{◌≡◌, ◌≤◌, OnOk, OnErr};
ghost use Rattle.agent_bytes.specs.Faults.{Rose};
ghost use Rattle.agent_bytes.specs.Told.{gained, GainsPart};

use crate::failed::Failed;
use crate::sink::Sink;

/// Writes all of `bytes`, in as many calls as the sink wants, up to the first that fails.
pub fn write_all<S: Sink>(sink: &mut S, bytes: &[u8]) -> Result<(), Failed>
    ensures written { OnOk result (S.contents sink.new ≡ gained (S.contents sink.old) bytes.now) }

    // At a fault a part from the front was written, and not all of it.
    ensures part { OnErr result (GainsPart (S.contents sink.old) (S.contents sink.new) bytes.now) }

    // The fault is counted, and there is no other.
    ensures failed { OnErr result (Rose (S.faults sink.old) (S.faults sink.new)) }
    ensures quiet { OnOk result (S.faults sink.new ≡ S.faults sink.old) }
    ensures counted { S.faults sink.old ≤ S.faults sink.new }
{
    let mut done = 0;
    while done < bytes.len() {
        done += sink.write(&bytes[done..])?;
    }
    Ok(())
}
