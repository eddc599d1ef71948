//! What holds of shares, as contracts: no session is left over, and none is dealt twice.

ghost use Rattle.agent_links.specs.ShareLaws.{SharesAddUp, PartsJoined};

/// Where there is a worker, all shares together are as many as the sessions, and the parts in a row are the front of
/// the list, so long. Does nothing.
pub fn sessions_are_dealt()
    ensures shares { SharesAddUp }
    ensures parts { PartsJoined }
{}
