//! How many sessions a worker serves.
ghost use Rattle.std.specs.Prelude.{◌≡◌, ◌<◌};
ghost use Rattle.agent_links.specs.Shares.{share};

/// The share of one of `workers` workers, counted from 0.
pub fn share_of(sessions: u32, workers: u32, worker: u32) -> u64
    requires { worker < workers }
    ensures { result ≡ share sessions workers worker }
{
    let equal = u64::from(sessions / workers);
    if worker < sessions % workers {
        equal + 1
    } else {
        equal
    }
}
