//! Members added to and removed from values of SET OF where they stand: X.711, type ModifyOperator.
#![tactic(auto)]

mod adding;
mod member_change;
mod octet_counts;
mod permitting;
mod placing;
mod removing;

pub use adding::add_members;
pub use member_change::{MemberChange, Removal, Undo, take_back};
pub use octet_counts::{count_octets, length_by};
pub use removing::remove_members;
