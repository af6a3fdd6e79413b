//! Moments as dates.

use bl_syntax::limits::{FIRST_MOMENT, LAST_MOMENT};
use bl_syntax::{NoMemory, TimePoint};
use jiff::Timestamp;

/// Writes a second, counted from 1970-01-01T00:00:00Z, as a date with a time of day; or as a number, if it is before the
/// year 1 or after the year 9999.
pub fn put_moment(out: &mut String, second: i64) -> Result<(), NoMemory> {
    if second < FIRST_MOMENT || LAST_MOMENT < second {
        write!(out, "{second}")?;
        return Ok(());
    }
    match Timestamp::from_second(second) {
        Ok(moment) => write!(out, "{moment}")?,
        Err(_) => write!(out, "{second}")?,
    }
    Ok(())
}

/// Writes a point in time.
pub fn put_time(out: &mut String, point: TimePoint) -> Result<(), NoMemory> {
    match point {
        TimePoint::NegInf => out.push_str("the beginning of time")?,
        TimePoint::At(second) => put_moment(out, second)?,
        TimePoint::PosInf => out.push_str("the end of time")?,
    }
    Ok(())
}
