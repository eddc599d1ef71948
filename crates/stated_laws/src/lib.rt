//! That what packages state of attributes, and what classes join of it, is whole where nothing is wrong with the
//! classes (X.722, section 8.4; docs/PROFILE.md, section 18). It has no code.
#![tactic(auto)]
