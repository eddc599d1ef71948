//! What holds of the parts of every set of documents that was read (docs/PROFILE.md, sections 1, 2 and 9). It has no code.
#![tactic(auto)]
