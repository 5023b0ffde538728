//! Reading a duration.
ghost use Rattle.std.specs.Prelude.{◌≡◌, ◌+◌, ◌*◌, ◌<◌, ◌≤◌, Some, None, option_map, MatchResult, IfOk, IfSome, true};
ghost use Rattle.iv_time.specs.Durations.{with_digit, with_digits, count_at, count_or_none, seconds_in, duration_of, is_duration};

use crate::reading::{one, past};

/// The text isn't a duration's.
#[derive(Clone, Copy, Debug, PartialEq, Eq)]
pub struct BadDuration;

// The number with one more digit, if one is there.
#[tactic(auto, unfolding(crate::specs::Durations::with_digit))]
fn with_digit(number: u32, text: &[u8]) -> (u32, &[u8])
    requires { number < 1000000 }
    ensures read { (result.0, result.1.now) ≡ with_digit number text.entry.now }
    ensures small { result.0 ≤ 10 * number + 9 }
{
    match text {
        [digit @ b'0'..=b'9', rest @ ..] => (10 * number + (*digit - b'0') as u32, rest),
        _ => (number, text),
    }
}

// The number with at most six more digits.
#[tactic(auto, unfolding(crate::specs::Durations::with_digits))]
fn with_digits(number: u32, text: &[u8]) -> (u32, &[u8])
    requires { number < 10 }
    ensures read { (result.0, result.1.now) ≡ with_digits number text.entry.now }
    ensures small { result.0 < 10000000 }
{
    let (number, text) = with_digit(number, text);
    let (number, text) = with_digit(number, text);
    let (number, text) = with_digit(number, text);
    let (number, text) = with_digit(number, text);
    let (number, text) = with_digit(number, text);
    with_digit(number, text)
}

#[tactic(auto, unfolding(crate::specs::Durations::count_at))]
fn count(letter: u8, text: &[u8]) -> Option<(u32, &[u8])>
    ensures read { option_map (λ x. (x.0, x.1.now)) result ≡ count_at letter text.now }
    ensures small { IfSome result (λ x. x.0 < 10000000) }
{
    let (first, rest) = one(text)?;
    let (number, rest) = with_digits(first as u32, rest);
    let rest = past(letter, rest)?;
    Some((number, rest))
}

#[tactic(auto, unfolding(crate::specs::Durations::count_or_none))]
fn count_if_any(letter: u8, text: &[u8]) -> (u32, &[u8])
    ensures read { (result.0, result.1.now) ≡ count_or_none letter text.entry.now }
    ensures small { result.0 < 10000000 }
{
    match count(letter, text) {
        Some((number, rest)) => (number, rest),
        None => (0, text),
    }
}

// Hours, minutes and seconds, in seconds.
#[tactic(auto, unfolding(crate::specs::Durations::seconds_in))]
fn seconds(text: &[u8]) -> (u64, &[u8])
    ensures read { (result.0, result.1.now) ≡ seconds_in text.entry.now }
    ensures small { result.0 ≤ 36609996339 }
{
    let (hours, rest) = count_if_any(b'H', text);
    let (minutes, rest) = count_if_any(b'M', rest);
    let (seconds, rest) = count_if_any(b'S', rest);
    (
        3_600 * hours as u64 + 60 * minutes as u64 + seconds as u64,
        rest,
    )
}

#[tactic(auto, unfolding(crate::specs::Durations::duration_of))]
fn duration(text: &[u8]) -> Option<i64>
    ensures read { result ≡ duration_of text.now }
    ensures kept { IfSome result (λ ms. is_duration ms ≡ true) }
{
    let rest = past(b'P', text)?;
    let rest = past(b'T', rest)?;
    let (seconds, rest) = seconds(rest);
    if rest.is_empty() && seconds >= 1 {
        Some(1_000 * seconds as i64)
    } else {
        None
    }
}

/// The milliseconds that a duration's text stands for: `PT`, then hours, minutes and seconds, as
/// `PT1H30M` of ISO 8601, each a number of 1 to 7 digits, and at least a second in all.
pub fn parse_duration(text: &[u8]) -> Result<i64, BadDuration>
    ensures read { MatchResult result (λ ms. duration_of text.now ≡ Some ms) (λ _. duration_of text.now ≡ None) }
    ensures kept { IfOk result (λ ms. is_duration ms ≡ true) }
{
    match duration(text) {
        Some(ms) => Ok(ms),
        None => Err(BadDuration),
    }
}
