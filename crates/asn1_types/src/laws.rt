//! A law of texts of DEFAULT, as a contract: X.680, section 25.1.

ghost use Rattle.asn1_types.specs.OneDefault.{OneDefaultStands};

/// At a path stands one text of DEFAULT, and no second one. Does nothing.
pub fn one_default_stands()
    ensures { OneDefaultStands }
{}
