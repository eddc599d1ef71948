//! Counts of faults, which stay at their largest value.
ghost use Rattle.std.specs.Prelude.{◌≡◌, ◌≤◌};
ghost use Rattle.agent_bytes.specs.Faults.{Rose, one_more};

/// The count after one more.
pub fn counted_up(count: u64) -> u64
    ensures value { result ≡ one_more count }
    ensures rose { Rose count result }
    ensures kept { count ≤ result }
{
    count.saturating_add(1)
}
