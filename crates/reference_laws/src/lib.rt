//! That in the schema of linked parts each reference is to a record of the schema (X.722, section 8; docs/PROFILE.md,
//! sections 9 and 12). It has no code.
#![tactic(auto)]
