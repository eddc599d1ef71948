//! Whole numbers of 64 bits in decimal digits, with a sign or without (X.680, sections 12.8 and 19).

ghost use Rattle.std.specs.Prelude.{◌≡◌, MatchOption};
ghost use Rattle.std.specs.Str.Parse.{IsNumeral};
ghost use Rattle.asn1_names.specs.SignedNumerals.{signed};
ghost use Rattle.asn1_names.specs.WholeNumbers.{FitsSixtyFour, signed_number};

use text_lex::numerals::decimal;
use token_grammar::Token;

/// The least number that isn't one of 64 bits.
const PAST_WHOLE: u64 = 9_223_372_036_854_775_808;

/// The number with its sign, where it has 64 bits.
fn signed(minus: bool, number: u64) -> Option<i64>
    ensures { MatchOption result (¬ FitsSixtyFour (signed minus number))
        (λ n. (n ≡ signed minus number) × FitsSixtyFour n) }
{
    if !minus {
        return if number < PAST_WHOLE {
            Some(number as i64)
        } else {
            None
        };
    }
    if number == 0 {
        return Some(0);
    }
    if number <= PAST_WHOLE {
        Some(-1 - (number - 1) as i64)
    } else {
        None
    }
}

/// The number of digits with a minus or without, where it has 64 bits.
pub fn digits_number(minus: bool, token: &Token) -> Option<i64>
    ensures { MatchOption result
        (IsNumeral 10 token.now.text → ¬ FitsSixtyFour (signed_number minus token.now))
        (λ n. IsNumeral 10 token.now.text × (n ≡ signed_number minus token.now) × FitsSixtyFour n) }
{
    match decimal(token.text.as_slice()) {
        None => None,
        Some(number) => signed(minus, number),
    }
}
