//! Buckets of time.
ghost use Rattle.std.specs.Prelude.{◌≡◌, ◌*◌, ◌/◌, ◌<◌, ◌≤◌, pos, ◌-ℤ◌, ◌≤ℤ◌, neg_ℤ};
ghost use Rattle.jiff_core.specs.Calendar.{IsEpochDay};
ghost use Rattle.iv_time.specs.Range.{IsInstant};
ghost use Rattle.iv_time.specs.Buckets.{unit_span, day_span, week_span, month_span, year_span, span_of, bucket_of, finer_of};
ghost use Rattle.iv_time.specs.Civil.{civil_of};

use crate::dates::date_of;
use crate::granularity::Granularity;
use crate::range::in_range;

// The bucket of so many milliseconds, which divide a day.
fn units(unit: u64, ms: i64) -> (i64, i64)
    requires ms { IsInstant ms }
    requires unit { 0 < unit }
    requires most { unit ≤ 86400000 }
    ensures { result ≡ unit_span unit ms }
{
    let n = (ms + 62_167_219_200_000) as u64;
    let first = unit * (n / unit);
    (
        first as i64 - 62_167_219_200_000,
        (first + unit) as i64 - 62_167_219_200_000,
    )
}

// So many days from a day on, of which 1970-01-01 is 0.
fn days(first: i64, count: u32) -> (i64, i64)
    requires low { neg_ℤ (pos 4371600) ≤ℤ first }
    requires high { first ≤ℤ pos 2932896 }
    requires count { count ≤ 366 }
    ensures { result ≡ day_span first count }
{
    (86_400_000 * first, 86_400_000 * (first + count as i64))
}

// The week, month or year of the day so many days after 0000-01-01.

fn week(day: u32) -> (i64, i64)
    requires { day < 3652425 }
    ensures { result ≡ week_span (pos day -ℤ pos 719528) }
{
    let weekday = date_of(day).to_plain().weekday();
    let first = day as i64 - 719_528 - weekday.to_monday_zero_offset() as i64;
    days(first, 7)
}

fn month(day: u32) -> (i64, i64)
    requires { day < 3652425 }
    ensures { result ≡ month_span (civil_of day) }
{
    let date = date_of(day);
    let first = date.first_of_month().to_plain().to_unix_epoch_day();
    days(first as i64, date.days_in_month() as u32)
}

fn year(day: u32) -> (i64, i64)
    requires { day < 3652425 }
    ensures { result ≡ year_span (civil_of day) }
{
    let date = date_of(day);
    let first = date.first_of_year().to_plain().to_unix_epoch_day();
    days(first as i64, date.days_in_year() as u32)
}

fn span(granularity: Granularity, ms: i64) -> (i64, i64)
    requires { IsInstant ms }
    ensures { result ≡ span_of granularity ms }
{
    let day = ((ms + 62_167_219_200_000) as u64 / 86_400_000) as u32;
    match granularity {
        Granularity::Minute => units(60_000, ms),
        Granularity::FifteenMinute => units(900_000, ms),
        Granularity::Hour => units(3_600_000, ms),
        Granularity::Day => units(86_400_000, ms),
        Granularity::Week => week(day),
        Granularity::Month => month(day),
        Granularity::Year => year(day),
    }
}

/// The bucket of UTC that has the instant, from its start, included, to its end, excluded. `None`
/// where one of them is no instant: at a week before the first Monday of the year 0, and wherever the
/// bucket ends with the year 9999.
pub fn bucket(granularity: Granularity, ms: i64) -> Option<(i64, i64)>
    requires { IsInstant ms }
    ensures { result ≡ bucket_of granularity ms }
{
    let (start, end) = span(granularity, ms);
    if in_range(start) && in_range(end) {
        Some((start, end))
    } else {
        None
    }
}

/// The next finer granularity, and `None` for a minute.
pub fn finer(granularity: Granularity) -> Option<Granularity>
    ensures { result ≡ finer_of granularity }
{
    match granularity {
        Granularity::Year => Some(Granularity::Month),
        Granularity::Month => Some(Granularity::Week),
        Granularity::Week => Some(Granularity::Day),
        Granularity::Day => Some(Granularity::Hour),
        Granularity::Hour => Some(Granularity::FifteenMinute),
        Granularity::FifteenMinute => Some(Granularity::Minute),
        Granularity::Minute => None,
    }
}
