//! Numbers of two decimal digits.

ghost use Rattle.std.specs.Prelude.{ℕ, ◌≡◌, ◌+◌, ◌<◌, ◌≤◌, ◌/◌, ◌%◌, pos, ◌∷◌, []};
ghost use Rattle.term_values.specs.Moment.{digits_of};

/// The two digits of a number below 100.
pub fn two_digits(number: u8) -> [u8; 2]
    requires { number < 100 }
    ensures { result ≡ digits_of 2 number }
{
    [b'0' + number / 10, b'0' + number % 10]
}

/// The value of a digit; of another octet, the value of some digit.
fn value_of(octet: u8) -> u8
    ensures bound { result < 10 }
    ensures value { (digit : ℕ) → digit < 10 → octet ≡ 48 + digit → result ≡ digit }
{
    octet.saturating_sub(b'0').min(9)
}

/// The number that two digits are; of other octets, some number below 100.
pub fn number_of(tens: u8, units: u8) -> u8
    ensures bound { result < 100 }
    ensures value { (number : ℕ) → number < 100 → tens ∷ units ∷ [] ≡ digits_of 2 number
        → result ≡ number }
{
    value_of(tens) * 10 + value_of(units)
}
