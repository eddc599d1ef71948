//! That names in linked parts have syntaxes and values, where nothing is wrong with their modules and their classes
//! (X.722, section 8; X.680, sections 13 to 17; docs/PROFILE.md, sections 11 and 18). It has no code.
#![tactic(auto)]
