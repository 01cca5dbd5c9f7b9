//! Dates of markers.
//!
//! Format 0 keeps the date of a marker in its metadata, as seconds since 1970 (UTC), which may have a fraction, a
//! space, and the time zone's offset in seconds west of UTC. As Mercurial does, a marker without a date, or with
//! another text there, is shown with the date `0 0`.
use jiff::{Error, Timestamp};
use std::alloc::{AllocError, Global};
use std::num::saturating_f64_to_i32;
use std::str;

/// When a marker was made.
#[derive(Clone, Copy)]
pub(crate) struct Date {
    // In seconds since 1970 (UTC).
    seconds: f64,
    // In seconds west of UTC.
    offset: i32,
}

impl Date {
    // The date of a marker that has none.
    const UNKNOWN: Date = Date {
        seconds: 0.0,
        offset: 0,
    };

    /// The date that this value of the metadata says.
    pub(crate) fn of_value(value: Option<&[u8]>) -> Date {
        match value {
            Some(value) => read_date(value).unwrap_or(Date::UNKNOWN),
            None => Date::UNKNOWN,
        }
    }

    // The time that a clock of the time zone showed, in whole seconds since 1970, rounded down. As Mercurial does, it
    // is kept within 32 bits.
    fn local_seconds(self) -> i32 {
        let local = self.seconds - f64::from(self.offset);
        let whole = saturating_f64_to_i32(local);
        if local < f64::from(whole) {
            whole.saturating_sub(1)
        } else {
            whole
        }
    }

    /// The date in Mercurial's default form, as `Thu Jan 01 00:00:00 1970 +0000`.
    pub(crate) fn to_text(self, alloc: Global) -> Result<String, AllocError> {
        let civil = match civil_time(alloc, self.local_seconds()) {
            Ok(civil) => civil,
            Err(_) => return Err(AllocError),
        };
        let sign = if self.offset > 0 { '-' } else { '+' };
        let minutes = self.offset.unsigned_abs() / 60;
        let (hours, minutes) = (minutes / 60, minutes % 60);
        format!(in alloc; "{civil} {sign}{hours:02}{minutes:02}")
    }
}

// The date that seconds and an offset say, with one space between them.
fn read_date(value: &[u8]) -> Option<Date> {
    let (seconds, offset) = str::from_utf8(value).ok()?.split_once(' ')?;
    Some(Date {
        seconds: seconds.parse().ok()?,
        offset: offset.parse().ok()?,
    })
}

// What a clock of UTC shows so many seconds after 1970. The seconds are within the calendar, so memory alone is wanting
// where it fails.
fn civil_time(alloc: Global, seconds: i32) -> Result<String, Error> {
    Timestamp::from_second(i64::from(seconds))?.strftime(alloc, "%a %b %d %H:%M:%S %Y")
}
