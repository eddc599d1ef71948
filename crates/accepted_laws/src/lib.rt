//! That no documents are both accepted and refused, and that what documents say is determined by their octets (X.722,
//! section 8; X.680, section 12; docs/PROFILE.md, section 2). It has no code.
#![tactic(auto)]
