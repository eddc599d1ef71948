//! What the keywords of ASN.1 decide (X.680, section 12.38).

ghost use Rattle.asn1_values_syntax.specs.Keywords.{DecidedByKeywords};

/// The list of keywords decides the table of forms: of two texts that differ in names alone, words that aren't in the
/// list, each form has the same spellings and beginnings, and so the same fault. Does nothing.
pub fn decided_by_keywords()
    ensures { DecidedByKeywords }
{}
