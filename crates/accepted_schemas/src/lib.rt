//! That documents have one schema at most, that it is whole and everything in it has an encoding, and that every object
//! obeys its templates in a run on it (X.722, section 8; X.690, section 8; docs/PROFILE.md, sections 2, 3, 9 and 18). It
//! has no code.
#![tactic(auto)]
