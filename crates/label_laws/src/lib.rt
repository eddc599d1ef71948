//! That what is noted of references is what the sentences of their faults say, and that nothing is missing where none
//! holds (X.722, section 8; docs/PROFILE.md, section 12). It has no code.
#![tactic(auto)]
