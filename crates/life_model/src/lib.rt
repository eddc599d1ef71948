//! The definitions of the creation and the deletion of one object, above those of a creation under a name that is
//! given: X.711, section 7.4, m-Create and m-Delete; docs/PROFILE.md, section 15.
#![tactic(auto)]
