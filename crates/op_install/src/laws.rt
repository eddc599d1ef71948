//! Laws of the objects on which requests are carried out, as contracts: X.711, section 7; X.720, sections 5 and 6.

ghost use Rattle.op_install.specs.StayingLaws.{GoodAreSmall, OutcomesStayGood, OutcomesStaySmall};

/// What an m-Get or an m-Set leaves of a well-formed map is one. Does nothing.
pub fn outcomes_stay_good()
    ensures { OutcomesStayGood }
{}

/// Where each object has at most 16,384 octets, each that an m-Get or an m-Set leaves has. Does nothing.
pub fn outcomes_stay_small()
    ensures { OutcomesStaySmall }
{}

/// Each object of a well-formed map has at most 16,384 octets. Does nothing.
pub fn good_are_small()
    ensures { GoodAreSmall }
{}
