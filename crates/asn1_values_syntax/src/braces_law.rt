//! What holds of braces that can be read in two ways (X.680, section 32.3; X.208, section 20.5).

ghost use Rattle.asn1_values_syntax.specs.Readings.{BracesBeginEither, IdentifiersAreKept, IdentifiersAreSpelt};
ghost use Rattle.asn1_values_syntax.specs.Readings.{IdentifiersBeginValues, PartsAreKept, PartsAreSpelt};
ghost use Rattle.asn1_values_syntax.specs.Readings.{PartsBeginValues};

/// Each object identifier and each list of parts in braces is a value, and what is kept of the value says either
/// reading; it says one only where the tokens spell it. A value with a brace goes on with a token where one of both
/// readings does, so that its fault is the furthest of both. Does nothing.
pub fn both_readings()
    ensures identifier_kept { IdentifiersAreKept }
    ensures identifier_spelt { IdentifiersAreSpelt }
    ensures parts_kept { PartsAreKept }
    ensures parts_spelt { PartsAreSpelt }
    ensures identifier_begun { IdentifiersBeginValues }
    ensures parts_begun { PartsBeginValues }
    ensures either_begun { BracesBeginEither }
{}
