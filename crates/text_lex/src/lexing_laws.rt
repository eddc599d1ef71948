//! What holds of each document, its tokens and its first fault: X.722, section 8.2.

ghost use Rattle.text_lex.specs.Laws.{OneListOfTokens, OneFirstFault, NeverTokensAndFault};

/// A document has at most one list of tokens, at most one first fault, and not both. Does nothing.
pub fn tokens_are_determined()
    ensures one_list { OneListOfTokens }
    ensures one_fault { OneFirstFault }
    ensures never_both { NeverTokensAndFault }
{}
