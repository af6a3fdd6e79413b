//! Dates of seconds.

ghost use Rattle.std.specs.Prelude.{◌≡◌, ◌≤◌, ◌<◌, ◌+◌, ◌^◌, ◌++◌, OnOk};
ghost use Rattle.bl_syntax.specs.TimeOrder.{IsMoment};
ghost use Rattle.history_text.specs.Dates.{clock_text, date_text, day_of_month, day_of_year, day_text, days_text, four_digits, month_from_march, month_of, since_march, two_digits, year_of, year_of_cycle};

use bl_syntax::decimal::{put_decimal, put_text};
use bl_syntax::{Bytes, NoMemory};

/// The seconds from the first day of March of the year 0 to 1970-01-01T00:00:00Z.
const BEFORE_1970: i64 = 62_162_035_200;

/// The seconds of a day.
const DAY: u64 = 86_400;

/// The days of 400 years.
const CYCLE: u64 = 146_097;

// Writes a number with two digits.
fn put_two(out: &mut Bytes, number: u64) -> Result<(), NoMemory>
    ensures { OnOk result (out.new ≡ out.old ++ two_digits number) }
{
    if number < 10 {
        put_text(out, "0")?;
        return put_decimal(out, number);
    }
    put_decimal(out, number)
}

// Writes a number with four digits.
fn put_four(out: &mut Bytes, number: u64) -> Result<(), NoMemory>
    ensures { OnOk result (out.new ≡ out.old ++ four_digits number) }
{
    if number < 10 {
        put_text(out, "000")?;
        return put_decimal(out, number);
    }
    if number < 100 {
        put_text(out, "00")?;
        return put_decimal(out, number);
    }
    if number < 1_000 {
        put_text(out, "0")?;
        return put_decimal(out, number);
    }
    put_decimal(out, number)
}

// The year within 400 years of a day within them.
fn year_of_cycle(day: u64) -> u64
    requires { day < CYCLE }
    ensures same { result ≡ year_of_cycle day }
    ensures few { result ≤ 400 }
{
    let leap_days = day / 1_460 + day / 146_096;
    (day + day / 36_524 - leap_days) / 365
}

// The day of the year of a day within 400 years.
fn day_of_year(day: u64) -> u64
    requires { day < CYCLE }
    ensures same { result ≡ day_of_year day }
    ensures few { result < CYCLE + 400 }
{
    let year = year_of_cycle(day);
    (day + year / 100).saturating_sub(365 * year + year / 4)
}

fn month_from_march(day: u64) -> u64
    requires { day < CYCLE + 400 }
    ensures same { result ≡ month_from_march day }
    ensures few { result ≤ 5000 }
{
    (5 * day + 2) / 153
}

fn day_of_month(day: u64) -> u64
    requires { day < CYCLE + 400 }
    ensures { result ≡ day_of_month day }
{
    day.saturating_sub((153 * month_from_march(day) + 2) / 5) + 1
}

fn month_of(march: u64) -> u64
    requires { march ≤ 5000 }
    ensures { result ≡ month_of march }
{
    if march < 10 { march + 3 } else { march - 9 }
}

fn year_of(march_year: u64, month: u64) -> u64
    requires { march_year < 2 ^ 63 }
    ensures { result ≡ year_of march_year month }
{
    if month < 3 {
        march_year + 1
    } else {
        march_year
    }
}

// Writes the date of a day of the year that began in that March.
fn put_day(out: &mut Bytes, march_year: u64, day: u64) -> Result<(), NoMemory>
    requires year { march_year < 2 ^ 63 }
    requires day { day < CYCLE + 400 }
    ensures { OnOk result (out.new ≡ out.old ++ day_text march_year day) }
{
    let month = month_of(month_from_march(day));
    put_four(out, year_of(march_year, month))?;
    put_text(out, "-")?;
    put_two(out, month)?;
    put_text(out, "-")?;
    put_two(out, day_of_month(day))
}

// Writes the date of a day.
fn put_days(out: &mut Bytes, day: u64) -> Result<(), NoMemory>
    requires { day < 2 ^ 62 }
    ensures { OnOk result (out.new ≡ out.old ++ days_text day) }
{
    let within = day % CYCLE;
    let year = day / CYCLE * 400 + year_of_cycle(within);
    put_day(out, year, day_of_year(within))
}

// Writes the time of a second of a day.
fn put_clock(out: &mut Bytes, second: u64) -> Result<(), NoMemory>
    ensures { OnOk result (out.new ≡ out.old ++ clock_text second) }
{
    put_text(out, "T")?;
    put_two(out, second / 3_600)?;
    put_text(out, ":")?;
    put_two(out, second / 60 % 60)?;
    put_text(out, ":")?;
    put_two(out, second % 60)?;
    put_text(out, "Z")
}

// The seconds since the first of March of the year 0; 0 before it.
fn since_march(second: i64) -> u64
    requires { IsMoment second }
    ensures same { result ≡ since_march second }
    ensures few { result < 2 ^ 62 }
{
    (second + BEFORE_1970) as u64
}

/// Writes a second of the years 1 to 9999 as a date, as 1970-01-01T00:01:40Z.
pub fn put_date(out: &mut Bytes, second: i64) -> Result<(), NoMemory>
    requires { IsMoment second }
    ensures { OnOk result (out.new ≡ out.old ++ date_text second) }
{
    let second = since_march(second);
    put_days(out, second / DAY)?;
    put_clock(out, second % DAY)
}
