//! What a clock in UTC shows at a second since 1970, both ways, by `jiff`.

ghost use Rattle.std.specs.Prelude.{ℕ, ◌≡◌, ◌*◌, ◌<◌, ◌≤◌, pos, Some};
ghost use Rattle.jiff.specs.Words.{civil_nanos};
ghost use Rattle.time_text.specs.MomentParts.{parts_of};

use crate::parts::Parts;
use jiff::Timestamp;
use jiff::civil::{Date, DateTime, Time};
use jiff::tz::Offset;

/// The last second of the year 9998, in seconds since 1970: the greatest moment that is told.
pub const LAST_SECOND: u64 = 253_370_764_799;

fn clock_at(seconds: u64) -> DateTime
    requires { seconds ≤ 253370764799 }
    ensures { civil_nanos result ≡ pos (seconds * 1000000000) }
{
    match Timestamp::from_second(seconds as i64) {
        Ok(moment) => Offset::UTC.to_datetime(moment),
        Err(_) => unreachable!(),
    }
}

/// The parts of a second.
pub fn parts_at(seconds: u64) -> Parts
    requires { seconds ≤ 253370764799 }
    ensures parts { result ≡ parts_of seconds }
    ensures year { result.year < 10000 }
    ensures month { result.month ≤ 12 }
    ensures day { result.day ≤ 31 }
{
    let clock = clock_at(seconds);
    Parts {
        year: clock.year() as u16,
        month: clock.month() as u8,
        day: clock.day() as u8,
        hour: clock.hour() as u8,
        minute: clock.minute() as u8,
        second: clock.second() as u8,
    }
}

/// The second whose parts these are. Where they are no second's, it is some second or none.
pub fn second_at(parts: &Parts) -> Option<u64>
    requires year { parts.now.year < 10000 }
    requires month { parts.now.month < 100 }
    requires day { parts.now.day < 100 }
    requires hour { parts.now.hour < 100 }
    requires minute { parts.now.minute < 100 }
    requires second { parts.now.second < 100 }
    ensures { (seconds : ℕ) → seconds ≤ 253370764799 → parts.now ≡ parts_of seconds
        → result ≡ Some seconds }
{
    let Ok(date) = Date::new(parts.year as i16, parts.month as i8, parts.day as i8) else {
        return None;
    };
    let Ok(time) = Time::new(parts.hour as i8, parts.minute as i8, parts.second as i8, 0) else {
        return None;
    };
    let Ok(moment) = Offset::UTC.to_timestamp(DateTime::from_parts(date, time)) else {
        return None;
    };
    let seconds = moment.as_second();
    if seconds < 0 {
        return None;
    }
    Some(seconds as u64)
}
