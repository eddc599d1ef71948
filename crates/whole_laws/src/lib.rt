//! That the schema to which documents are compiled is whole (X.722, section 8). It has no code.
#![tactic(auto)]
