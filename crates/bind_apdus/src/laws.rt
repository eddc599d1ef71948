//! What holds of what is read as a BIND, as a contract: docs/PROFILE.md, section 4.

ghost use Rattle.bind_apdus.specs.BindLaws.{TitleIsDenoted};

/// What is read from a tree is what the tree denotes by the syntax of BIND: a title, and nothing else. Does nothing.
pub fn reading_is_denoting()
    ensures title { TitleIsDenoted }
{}
