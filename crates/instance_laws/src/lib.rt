//! That the values of instances, and the parts of their names and of the name of the system, are whole in the schema of
//! linked parts (X.722, section 8; docs/PROFILE.md, sections 9 and 16). It has no code.
#![tactic(auto)]
