//! That the syntaxes which modules without a fault give to types can be read and written (X.680, sections 25.6, 27.3,
//! 29.3 and 31.2; docs/PROFILE.md, section 11). It has no code.
#![tactic(auto)]
