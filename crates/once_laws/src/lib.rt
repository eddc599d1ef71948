//! That the schema of documents without a fault of labels has each identifier and each label once, and no two rules of
//! one class and action (X.722, section 8.2; docs/PROFILE.md, sections 9, 12 and 18). It has no code.
#![tactic(auto)]
