//! Laws of moments and their texts.

ghost use Rattle.std.specs.Prelude.{◌≡◌, min, Ok};
ghost use Rattle.time_text.specs.TimeLaws.{HasFifteenOctets, TellsOneMoment};

use crate::reading::{BadTime, read_time};
use crate::writing::write_time;

/// Every moment's text has 15 octets, and up to the end of the year 9998 it is the text of no other moment. Does
/// nothing.
pub fn texts_tell_moments()
    ensures octets { HasFifteenOctets }
    ensures one_moment { TellsOneMoment }
{}

/// What is read of the text that is written for a moment, in seconds since 1970: the moment, and of a moment behind
/// the end of the year 9998 the last second of that year.
pub fn read_written(seconds: u64) -> Result<u64, BadTime>
    ensures { result ≡ Ok (min seconds 253370764799) }
{
    read_time(&write_time(seconds))
}
