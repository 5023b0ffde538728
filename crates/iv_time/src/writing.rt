//! Writing an instant.
ghost use Rattle.std.specs.Prelude.{◌≡◌, ◌+◌, ◌/◌, ◌%◌, ◌<◌, pos, ◌≤ℤ◌, ◌+ℤ◌, neg_ℤ};
ghost use Rattle.iv_time.specs.Civil.{civil_of, date_text, clock_text, text_from, instant_text};
ghost use Rattle.iv_time.specs.Range.{IsInstant};

use crate::dates::date_of;

fn digit(number: u32) -> u8
    requires { number < 10 }
    ensures { result ≡ 48 + number }
{
    b'0' + number as u8
}

// The year, the month and the day.
fn civil_parts(days: u32) -> (u32, u32, u32)
    requires { days < 3652425 }
    ensures year { result.0 ≡ (civil_of days).year }
    ensures month { result.1 ≡ (civil_of days).month }
    ensures day { result.2 ≡ (civil_of days).day }
    ensures year_in { result.0 < 10000 }
    ensures month_in { result.1 < 13 }
    ensures day_in { result.2 < 32 }
{
    let date = date_of(days);
    (date.year() as u32, date.month() as u32, date.day() as u32)
}

fn date_cells(days: u32) -> [u8; 10]
    requires { days < 3652425 }
    ensures { result ≡ date_text (civil_of days) }
{
    let (year, month, day) = civil_parts(days);
    [
        digit(year / 100 / 10),
        digit(year / 100 % 10),
        digit(year % 100 / 10),
        digit(year % 100 % 10),
        b'-',
        digit(month / 10),
        digit(month % 10),
        b'-',
        digit(day / 10),
        digit(day % 10),
    ]
}

fn clock_cells(ms: u32) -> [u8; 12]
    requires { ms < 86400000 }
    ensures { result ≡ clock_text ms }
{
    [
        digit(ms / 3_600_000 / 10),
        digit(ms / 3_600_000 % 10),
        b':',
        digit(ms / 60_000 % 60 / 10),
        digit(ms / 60_000 % 60 % 10),
        b':',
        digit(ms / 1_000 % 60 / 10),
        digit(ms / 1_000 % 60 % 10),
        b'.',
        digit(ms % 1_000 / 100),
        digit(ms % 100 / 10),
        digit(ms % 100 % 10),
    ]
}

fn cells(n: u64) -> [u8; 24]
    requires { n < 315569520000000 }
    ensures { result ≡ text_from n }
{
    let d = date_cells((n / 86_400_000) as u32);
    let c = clock_cells((n % 86_400_000) as u32);
    [
        d[0], d[1], d[2], d[3], d[4], d[5], d[6], d[7], d[8], d[9], b'T', c[0], c[1], c[2], c[3],
        c[4], c[5], c[6], c[7], c[8], c[9], c[10], c[11], b'Z',
    ]
}

/// The text of an instant, in full.
pub fn write(ms: i64) -> [u8; 24]
    requires { IsInstant ms }
    ensures { result ≡ instant_text ms }
{
    cells((ms + 62_167_219_200_000) as u64)
}
