//! That linked parts of documents without a fault of labels are such as records are asked for (X.722, section 8;
//! docs/PROFILE.md, sections 12 and 18). It has no code.
#![tactic(auto)]
