//! That each CHOICE in modules that were read has an alternative (X.680, section 29.1; docs/PROFILE.md, section 8). It
//! has no code.
#![tactic(auto)]
