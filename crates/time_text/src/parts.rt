//! The numbers of which a moment's text consists.

/// A date and a time of day: the year, the month and the day from 1 on, the hour, the minute and the second.
#[derive(Drop)]
pub struct Parts {
    pub year: u16,
    pub month: u8,
    pub day: u8,
    pub hour: u8,
    pub minute: u8,
    pub second: u8,
}
