//! The text of a moment.

ghost use Rattle.std.specs.Prelude.{◌≡◌, min};
ghost use Rattle.term_values.specs.Moment.{moment_text};

use crate::clock::{LAST_SECOND, parts_at};
use crate::digits::two_digits;

/// The moment as GeneralizedTime in UTC, `YYYYMMDDHHMMSSZ`. It is told in seconds since 1970; a later moment than
/// [`LAST_SECOND`] is taken as that one.
pub fn write_time(seconds: u64) -> [u8; 15]
    ensures { result ≡ moment_text (min seconds 253370764799) }
{
    let parts = parts_at(seconds.min(LAST_SECOND));
    let [a, b] = two_digits((parts.year / 100) as u8);
    let [c, d] = two_digits((parts.year % 100) as u8);
    let [e, f] = two_digits(parts.month);
    let [g, h] = two_digits(parts.day);
    let [i, j] = two_digits(parts.hour);
    let [k, l] = two_digits(parts.minute);
    let [m, n] = two_digits(parts.second);
    [a, b, c, d, e, f, g, h, i, j, k, l, m, n, b'Z']
}
