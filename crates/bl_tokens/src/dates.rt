//! Dates and times of day.

ghost use Rattle.std.specs.Prelude.{◌≡◌, ◌+◌, ◌<◌, pos, ◌+ℤ◌, ◌*ℤ◌, ◌≤ℤ◌, negsuc, length, IsTrue, IfSome};
ghost use Rattle.jiff.specs.Words.{epoch_day};
ghost use Rattle.bl_tokens.specs.Dates.{has_two, has_byte, has_date_front, has_time_of_day, two_at, year_at, date_second, day_second, date_second_at, day_second_at};

use bl_syntax::byte_classes::is_digit;
use jiff::civil::Date;

fn has_two(bytes: &[u8], place: usize) -> bool
    requires { place + 1 < length bytes.now }
    ensures { result ≡ has_two bytes.now place }
{
    is_digit(bytes[place]) && is_digit(bytes[place + 1])
}

fn has_byte(bytes: &[u8], place: usize, byte: u8) -> bool
    requires { place < length bytes.now }
    ensures { result ≡ has_byte bytes.now place byte }
{
    bytes[place] == byte
}

/// Whether the bytes begin as `yyyy-mm-dd`.
pub fn has_date_front(bytes: &[u8]) -> bool
    ensures { result ≡ has_date_front bytes.now }
{
    10 <= bytes.len()
        && has_two(bytes, 0)
        && has_two(bytes, 2)
        && has_byte(bytes, 4, b'-')
        && has_two(bytes, 5)
        && has_byte(bytes, 7, b'-')
        && has_two(bytes, 8)
}

/// Whether the bytes go on from the tenth as `Thh:mm:ssZ`.
pub fn has_time_of_day(bytes: &[u8]) -> bool
    ensures { result ≡ has_time_of_day bytes.now }
{
    20 <= bytes.len()
        && has_byte(bytes, 10, b'T')
        && has_two(bytes, 11)
        && has_byte(bytes, 13, b':')
        && has_two(bytes, 14)
        && has_byte(bytes, 16, b':')
        && has_two(bytes, 17)
        && has_byte(bytes, 19, b'Z')
}

/// The number that two digits write.
fn two_at(bytes: &[u8], place: usize) -> u8
    requires inside { place + 1 < length bytes.now }
    requires digits { IsTrue (has_two bytes.now place) }
    ensures value { result ≡ two_at bytes.now place }
    ensures few { result < 100 }
{
    (bytes[place] - b'0') * 10 + (bytes[place + 1] - b'0')
}

/// The year with which the bytes begin.
fn year_at(bytes: &[u8]) -> u16
    requires { IsTrue (has_date_front bytes.now) }
    ensures value { result ≡ year_at bytes.now }
    ensures few { result < 10000 }
{
    u16::from(two_at(bytes, 0)) * 100 + u16::from(two_at(bytes, 2))
}

/// The second with which a date begins.
fn first_second(date: Date) -> i64
    ensures value { result ≡ epoch_day date *ℤ pos 86_400 }
    ensures range { (negsuc 1_000_000_000_000 ≤ℤ result) × (result ≤ℤ pos 1_000_000_000_000) }
{
    let epoch = jiff::civil::date(1970, 1, 1);
    let distance = date.duration_since(epoch);
    distance.as_secs()
}

/// The second with which a date begins; none if there is no such date from the year 1 on.
fn date_second(year: u16, month: u8, day: u8) -> Option<i64>
    requires year { year < 10000 }
    requires month { month < 100 }
    requires day { day < 100 }
    ensures value { result ≡ date_second year month day }
    ensures range { IfSome result (λ s. (negsuc 1_000_000_000_000 ≤ℤ s) × (s ≤ℤ pos 1_000_000_000_000)) }
{
    if year == 0 {
        return None;
    }
    match Date::new(year as i16, month as i8, day as i8) {
        Ok(date) => Some(first_second(date)),
        Err(_) => None,
    }
}

/// The second of a day; none if there is no such time of day.
fn day_second(hour: u8, minute: u8, second: u8) -> Option<u32>
    ensures value { result ≡ day_second hour minute second }
    ensures range { IfSome result (λ s. s < 86_400) }
{
    if hour <= 23 && minute <= 59 && second <= 59 {
        Some(u32::from(hour) * 3600 + u32::from(minute) * 60 + u32::from(second))
    } else {
        None
    }
}

/// The second of the date with which the bytes begin.
#[tactic(auto, using(crate::proofs::DateLemmas::parts_of_forms))]
pub fn date_second_at(bytes: &[u8]) -> Option<i64>
    requires { IsTrue (has_date_front bytes.now) }
    ensures value { result ≡ date_second_at bytes.now }
    ensures range { IfSome result (λ s. (negsuc 1_000_000_000_000 ≤ℤ s) × (s ≤ℤ pos 1_000_000_000_000)) }
{
    date_second(year_at(bytes), two_at(bytes, 5), two_at(bytes, 8))
}

/// The second of the time of day that stands after the date.
#[tactic(auto, using(crate::proofs::DateLemmas::parts_of_forms))]
pub fn day_second_at(bytes: &[u8]) -> Option<u32>
    requires { IsTrue (has_time_of_day bytes.now) }
    ensures value { result ≡ day_second_at bytes.now }
    ensures range { IfSome result (λ s. s < 86_400) }
{
    day_second(two_at(bytes, 11), two_at(bytes, 14), two_at(bytes, 17))
}

/// A second of a day that begins with another.
pub fn second_within(day: i64, second: u32) -> i64
    requires { (negsuc 1_000_000_000_000 ≤ℤ day) × (day ≤ℤ pos 1_000_000_000_000) }
    ensures { result ≡ day +ℤ pos second }
{
    day + i64::from(second)
}
