//! Reading an instant.
ghost use Rattle.std.specs.Prelude.{◌≡◌, ◌≤◌, ◌<◌, Some, None, option_map, MatchResult, IfOk, IfSome, true, pos, ◌≤ℤ◌, ◌<ℤ◌, negsuc, neg_ℤ};
ghost use Rattle.iv_time.specs.Texts.{two_at, one_at, three_at, four_at, after, day_of, date_at, is_end, millis_at, millis_or_end, seconds_at, seconds_or_end, clock_at, clock_or_none, instant_of};
ghost use Rattle.iv_time.specs.Range.{is_instant};

use jiff::civil::Date;

/// The text isn't an instant's.
#[derive(Clone, Copy, Debug, PartialEq, Eq)]
pub struct BadInstant;

#[tactic(auto, unfolding(crate::specs::Texts::one_at))]
pub(crate) fn one(text: &[u8]) -> Option<(u16, &[u8])>
    ensures read { option_map (λ x. (x.0, x.1.now)) result ≡ one_at text.now }
    ensures small { IfSome result (λ x. x.0 < 10) }
{
    match text {
        [a @ b'0'..=b'9', rest @ ..] => Some(((*a - b'0') as u16, rest)),
        _ => None,
    }
}

#[tactic(auto, unfolding(crate::specs::Texts::two_at))]
fn two(text: &[u8]) -> Option<(u16, &[u8])>
    ensures read { option_map (λ x. (x.0, x.1.now)) result ≡ two_at text.now }
    ensures small { IfSome result (λ x. x.0 < 100) }
{
    match text {
        [a @ b'0'..=b'9', b @ b'0'..=b'9', rest @ ..] => {
            Some((10 * (*a - b'0') as u16 + (*b - b'0') as u16, rest))
        }
        _ => None,
    }
}

#[tactic(auto, unfolding(crate::specs::Texts::three_at))]
fn three(text: &[u8]) -> Option<(u16, &[u8])>
    ensures read { option_map (λ x. (x.0, x.1.now)) result ≡ three_at text.now }
    ensures small { IfSome result (λ x. x.0 < 1000) }
{
    let (high, rest) = one(text)?;
    let (low, rest) = two(rest)?;
    Some((100 * high + low, rest))
}

#[tactic(auto, unfolding(crate::specs::Texts::four_at))]
fn four(text: &[u8]) -> Option<(u16, &[u8])>
    ensures read { option_map (λ x. (x.0, x.1.now)) result ≡ four_at text.now }
    ensures small { IfSome result (λ x. x.0 < 10000) }
{
    let (high, rest) = two(text)?;
    let (low, rest) = two(rest)?;
    Some((100 * high + low, rest))
}

#[tactic(auto, unfolding(crate::specs::Texts::after))]
pub(crate) fn past(byte: u8, text: &[u8]) -> Option<&[u8]>
    ensures { option_map (λ x. x.now) result ≡ after byte text.now }
{
    match text {
        [first, rest @ ..] if *first == byte => Some(rest),
        _ => None,
    }
}

#[tactic(auto, unfolding(crate::specs::Texts::is_end))]
fn ends(text: &[u8]) -> bool
    ensures { result ≡ is_end text.now }
{
    match text {
        [] => true,
        [last] => *last == b'Z',
        _ => false,
    }
}

#[tactic(auto, unfolding(crate::specs::Texts::millis_at))]
fn millis(text: &[u8]) -> Option<u32>
    ensures read { result ≡ millis_at text.now }
    ensures small { IfSome result (λ x. x < 1000) }
{
    let rest = past(b'.', text)?;
    let (millis, rest) = three(rest)?;
    if ends(rest) {
        Some(millis as u32)
    } else {
        None
    }
}

#[tactic(auto, unfolding(crate::specs::Texts::millis_or_end))]
fn millis_if_any(text: &[u8]) -> Option<u32>
    ensures read { result ≡ millis_or_end text.now }
    ensures small { IfSome result (λ x. x < 1000) }
{
    if ends(text) { Some(0) } else { millis(text) }
}

#[tactic(auto, unfolding(crate::specs::Texts::seconds_at))]
fn seconds(text: &[u8]) -> Option<u32>
    ensures read { result ≡ seconds_at text.now }
    ensures small { IfSome result (λ x. x < 60000) }
{
    let rest = past(b':', text)?;
    let (seconds, rest) = two(rest)?;
    let millis = millis_if_any(rest)?;
    if seconds < 60 {
        Some(1000 * seconds as u32 + millis)
    } else {
        None
    }
}

#[tactic(auto, unfolding(crate::specs::Texts::seconds_or_end))]
fn seconds_if_any(text: &[u8]) -> Option<u32>
    ensures read { result ≡ seconds_or_end text.now }
    ensures small { IfSome result (λ x. x < 60000) }
{
    if ends(text) { Some(0) } else { seconds(text) }
}

#[tactic(auto, unfolding(crate::specs::Texts::clock_at))]
fn clock(text: &[u8]) -> Option<u32>
    ensures read { result ≡ clock_at text.now }
    ensures small { IfSome result (λ x. x < 86400000) }
{
    let (hours, rest) = two(text)?;
    let rest = past(b':', rest)?;
    let (minutes, rest) = two(rest)?;
    let seconds = seconds_if_any(rest)?;
    if hours < 24 && minutes < 60 {
        Some(3_600_000 * hours as u32 + 60_000 * minutes as u32 + seconds)
    } else {
        None
    }
}

#[tactic(auto, unfolding(crate::specs::Texts::clock_or_none))]
fn clock_if_any(text: &[u8]) -> Option<u32>
    ensures read { result ≡ clock_or_none text.now }
    ensures small { IfSome result (λ x. x < 86400000) }
{
    match text {
        [] => Some(0),
        [b'T', rest @ ..] => clock(rest),
        _ => None,
    }
}

fn day_number(year: u16, month: u16, day: u16) -> Option<i64>
    requires year { year < 10000 }
    requires month { month < 100 }
    requires day { day < 100 }
    ensures value { result ≡ day_of year month day }
    ensures small { IfSome result (λ x. (neg_ℤ (pos 719528) ≤ℤ x) × (x ≤ℤ pos 2932896)) }
{
    match Date::new(year as i16, month as i8, day as i8) {
        Ok(date) => Some(date.to_plain().to_unix_epoch_day() as i64),
        Err(_) => None,
    }
}

#[tactic(auto, unfolding(crate::specs::Texts::date_at))]
fn date(text: &[u8]) -> Option<(i64, &[u8])>
    ensures read { option_map (λ x. (x.0, x.1.now)) result ≡ date_at text.now }
    ensures small { IfSome result (λ x. (neg_ℤ (pos 719528) ≤ℤ x.0) × (x.0 ≤ℤ pos 2932896)) }
{
    let (year, rest) = four(text)?;
    let rest = past(b'-', rest)?;
    let (month, rest) = two(rest)?;
    let rest = past(b'-', rest)?;
    let (day, rest) = two(rest)?;
    let day = day_number(year, month, day)?;
    Some((day, rest))
}

/// The instant that a text stands for.
#[tactic(auto, unfolding(crate::specs::Texts::instant_of))]
pub fn parse(text: &[u8]) -> Result<i64, BadInstant>
    ensures read { MatchResult result (λ ms. instant_of text.now ≡ Some ms) (λ _. instant_of text.now ≡ None) }
    ensures kept { IfOk result (λ ms. is_instant ms ≡ true) }
{
    match instant(text) {
        Some(ms) => Ok(ms),
        None => Err(BadInstant),
    }
}

#[tactic(auto, unfolding(crate::specs::Texts::instant_of))]
fn instant(text: &[u8]) -> Option<i64>
    ensures read { result ≡ instant_of text.now }
    ensures kept { IfSome result (λ ms. is_instant ms ≡ true) }
{
    let (day, rest) = date(text)?;
    let clock = clock_if_any(rest)?;
    Some(86_400_000 * day + clock as i64)
}
