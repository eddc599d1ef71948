//! The moment of a text.

ghost use Rattle.std.specs.Prelude.{ℕ, ◌≡◌, ◌≢◌, ◌≤◌, ◌<◌, IfOk, OnErr, length};
ghost use Rattle.term_values.specs.Moment.{moment_text};
ghost use Rattle.time_text.specs.MomentParts.{parts_of};

use crate::clock::{LAST_SECOND, second_at};
use crate::digits::number_of;
use crate::parts::Parts;
use crate::writing::write_time;

/// No second from 1970 to the end of the year 9998 is written so.
#[derive(Clone, Copy, Debug, PartialEq, Eq)]
pub struct BadTime;

/// The octets of a moment's text.
const TEXT_LENGTH: usize = 15;

/// The parts that the digits are. Of other octets they are some numbers.
fn read_parts(text: &[u8]) -> Parts
    requires { length text.now ≡ 15 }
    ensures parts { (seconds : ℕ) → seconds ≤ 253370764799 → text.now ≡ moment_text seconds
        → result ≡ parts_of seconds }
    ensures year { result.year < 10000 }
    ensures month { result.month < 100 }
    ensures day { result.day < 100 }
    ensures hour { result.hour < 100 }
    ensures minute { result.minute < 100 }
    ensures second { result.second < 100 }
{
    let century = number_of(text[0], text[1]) as u16;
    let of_century = number_of(text[2], text[3]) as u16;
    Parts {
        year: century * 100 + of_century,
        month: number_of(text[4], text[5]),
        day: number_of(text[6], text[7]),
        hour: number_of(text[8], text[9]),
        minute: number_of(text[10], text[11]),
        second: number_of(text[12], text[13]),
    }
}

/// The second since 1970, at most [`LAST_SECOND`], that is written so: [`BadTime`] exactly where there is none. What
/// the digits are is read first, whatever the octets, and then compared with what is written for it.
pub fn read_time(text: &[u8]) -> Result<u64, BadTime>
    ensures told { IfOk result (λ seconds. (seconds ≤ 253370764799) × (text.now ≡ moment_text seconds)) }
    ensures bad { OnErr result ((seconds : ℕ) → seconds ≤ 253370764799 → text.now ≢ moment_text seconds) }
{
    if text.len() != TEXT_LENGTH {
        return Err(BadTime);
    }
    match second_at(&read_parts(text)) {
        Some(seconds) if seconds <= LAST_SECOND && write_time(seconds).as_slice() == text => {
            Ok(seconds)
        }
        _ => Err(BadTime),
    }
}
