//! That what is noted while classes are closed is what the sentences of their faults say (X.722, section 8;
//! docs/PROFILE.md, section 18). It has no code.
#![tactic(auto)]
