//! The matching rules of attributes: X.722, section 8.7, as the items of a CMISFilter ask for them: X.711.
#![tactic(auto)]

pub mod arc_order;
pub mod equality;
pub mod first_sizes;
pub mod kinds;
pub mod leaf_order;
pub mod marks;
pub mod member_order;
pub mod next_marks;
pub mod not_matched;
pub mod set_marks;
pub mod sets;
pub mod substrings;
pub mod told;

pub use equality::{equal, orders};
pub use not_matched::NotMatched;
pub use sets::{meets, subset};
pub use substrings::contains_text;
