//! The text of a GeneralizedTime: X.680, section 46.

ghost use Rattle.std.specs.Prelude.{◌≡◌, ◌≤◌, ◌+◌, length, take, drop};
ghost use Rattle.term_values.specs.Bounded.{is_digit};
ghost use Rattle.term_values.specs.Times.{front_digits, behind_digits, two_digits, is_leap_year, days_in, is_date};
ghost use Rattle.term_values.specs.Times.{are_seconds, are_minutes, is_hour, is_moment, is_zone, is_fraction, is_time};

fn is_digit(octet: u8) -> bool
    ensures { result ≡ is_digit octet }
{
    matches!(octet, b'0'..=b'9')
}

/// How many digits stand in front.
fn count_digits(text: &[u8]) -> usize
    ensures front { front_digits text.now ≡ take result text.now }
    ensures behind { behind_digits text.now ≡ drop result text.now }
    ensures within { result ≤ length text.now }
{
    for i in 0..text.len() {
        if !is_digit(text[i]) {
            return i;
        }
    }
    text.len()
}

/// The number of two digits.
fn two_digits(tens: u8, units: u8) -> u32
    ensures number { result ≡ two_digits tens units }
    ensures small { result ≤ 2277 }
{
    tens.saturating_sub(b'0') as u32 * 10 + units.saturating_sub(b'0') as u32
}

fn is_leap_year(year: u32) -> bool
    ensures { result ≡ is_leap_year year }
{
    year % 4 == 0 && (year % 100 != 0 || year % 400 == 0)
}

fn days_in(year: u32, month: u32) -> u32
    ensures { result ≡ days_in year month }
{
    match month {
        2 => { if is_leap_year(year) { 29 } else { 28 } }
        4 | 6 | 9 | 11 => 30,
        _ => 31,
    }
}

fn is_date(year: u32, month: u32, day: u32) -> bool
    ensures { result ≡ is_date year month day }
{
    1 <= month && month <= 12 && 1 <= day && day <= days_in(year, month)
}

fn are_seconds(digits: &[u8]) -> bool
    ensures { result ≡ are_seconds digits.now }
{
    match digits {
        [] => true,
        [a, b] => two_digits(*a, *b) < 60,
        _ => false,
    }
}

fn are_minutes(digits: &[u8]) -> bool
    ensures { result ≡ are_minutes digits.now }
{
    match digits {
        [] => true,
        [a, b, rest @ ..] => two_digits(*a, *b) < 60 && are_seconds(rest),
        _ => false,
    }
}

fn is_hour(digits: &[u8]) -> bool
    ensures { result ≡ is_hour digits.now }
{
    match digits {
        [a, b, rest @ ..] => two_digits(*a, *b) < 24 && are_minutes(rest),
        _ => false,
    }
}

/// The digits are a date and a time of day.
fn is_moment(digits: &[u8]) -> bool
    ensures { result ≡ is_moment digits.now }
{
    match digits {
        [a, b, c, d, e, f, g, h, rest @ ..] => {
            let year = two_digits(*a, *b) * 100 + two_digits(*c, *d);
            is_date(year, two_digits(*e, *f), two_digits(*g, *h)) && is_hour(rest)
        }
        _ => false,
    }
}

/// Nothing, `Z`, or a sign and 2 or 4 digits.
fn is_zone(text: &[u8]) -> bool
    ensures { result ≡ is_zone text.now }
{
    match text {
        [] => true,
        [first, rest @ ..] => {
            let digits = rest.len() == count_digits(rest) && (rest.len() == 2 || rest.len() == 4);
            (*first == b'Z' && rest.len() == 0) || ((*first == b'+' || *first == b'-') && digits)
        }
    }
}

/// Optionally `.` or `,` and 1 to 9 digits, then a zone.
fn is_fraction(text: &[u8]) -> bool
    ensures { result ≡ is_fraction text.now }
{
    match text {
        [] => true,
        [first, rest @ ..] => {
            if *first != b'.' && *first != b',' {
                return is_zone(text);
            }
            let count = count_digits(rest);
            1 <= count && count <= 9 && is_zone(&rest[count..])
        }
    }
}

/// Whether the text is a GeneralizedTime: 10, 12 or 14 digits of a date and a time of day that exist, then optionally
/// `.` or `,` and 1 to 9 digits, then optionally `Z`, or a sign and 2 or 4 digits.
pub fn is_time(text: &[u8]) -> bool
    ensures { result ≡ is_time text.now }
{
    let count = count_digits(text);
    is_moment(&text[..count]) && is_fraction(&text[count..])
}
