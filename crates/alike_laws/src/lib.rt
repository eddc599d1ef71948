//! That types which are one have syntaxes that are alike once their DEFAULTs have values, and that the fields of
//! notifications are components (X.680, section 25; X.722, section 8.11; docs/PROFILE.md, section 12). It has no code.
#![tactic(auto)]
