//! What the creation of one object is made of: the values that its attributes take and which of them may stand. X.711,
//! section 7.4, m-Create; X.720, section 5.
#![tactic(auto)]

pub mod attribute_tests;
pub mod identifier_lists;
pub mod member_checks;
pub mod octet_values;
pub mod value_sources;
