//! That names in linked parts mean what is wanted, and that what instances name is registered, in documents without a
//! fault of labels (X.722, section 8; docs/PROFILE.md, sections 9 and 12). It has no code.
#![tactic(auto)]
