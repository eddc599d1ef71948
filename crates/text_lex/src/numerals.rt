//! Numbers in decimal digits: X.680, section 12.

ghost use Rattle.std.specs.Prelude.{◌≡◌, ◌<◌, ◌^◌, IfNone, IfSome};
ghost use Rattle.std.specs.Str.Parse.{IsNumeral, digits_value};

/// The number that decimal digits spell, at least one of them; none where they are no number below 2^64.
pub fn decimal(digits: &[u8]) -> Option<u64>
    ensures found { IfSome result (λ n. IsNumeral 10 digits.now × (n ≡ digits_value 10 digits.now)) }
    ensures none { IfNone result (IsNumeral 10 digits.now → digits_value 10 digits.now < 2 ^ 64 → ⊥) }
{
    if digits.is_empty() {
        return None;
    }
    let mut number = 0u64;
    for digit in digits {
        if !digit.is_ascii_digit() {
            return None;
        }
        let tens = number.checked_mul(10)?;
        number = tens.checked_add(u64::from(*digit - b'0'))?;
    }
    Some(number)
}
