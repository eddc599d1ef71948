//! Members added to and removed from the values of SET OF: X.711, type ModifyOperator.
#![tactic(auto)]

mod encodings;
mod laws;
mod members;

pub use laws::{
    members_as_sets, members_by_value, members_fit, members_rise, one_member_one_encoding,
};
pub use members::{with_members, without_members};
