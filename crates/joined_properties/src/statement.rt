//! What a package states of an attribute (X.722, section 8.4; docs/PROFILE.md, section 18).

use joined_statements::Joined;

/// What a package states of an attribute.
#[derive(Drop)]
pub struct Statement {
    /// The place of the attribute.
    pub attribute: usize,
    /// What is stated.
    pub joined: Joined,
}
