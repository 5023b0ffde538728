//! Reading a segment id from its right end.
ghost use Rattle.std.specs.Prelude.{◌≡◌, ◌<◌, ◌^◌, ℕ, Some, true, option_map, IfSome, bytes_eq, decimal};
ghost use Rattle.iv_time.specs.Range.{is_instant};
ghost use Rattle.iv_time.specs.Civil.{instant_text};
ghost use Rattle.seg_names.specs.IdTexts.{is_part_number, number_of, number_after, after_underscore, numbered_part, part_of, full_instant, instant_after, last_instant, parts_of};

use crate::utf8::text_of;
use itoa::Buffer;

// How many bytes follow the last `_`; all, where there is none.
fn count_after_underscore(text: &[u8]) -> usize
    ensures { result ≡ after_underscore text.now }
{
    text.iter().rev().take_while(|byte| **byte != b'_').count()
}

// Whether these digits are the number in decimal.
fn is_written(number: u32, digits: &[u8]) -> bool
    ensures { result ≡ bytes_eq (decimal number) digits.now }
{
    Buffer::new().format(number).as_bytes() == digits
}

// Whether these digits are that part's number, in decimal without leading zeros. Part 0 has none.
fn is_part_number(number: u32, digits: &[u8]) -> bool
    ensures { result ≡ is_part_number number digits.now }
{
    number >= 1 && is_written(number, digits)
}

// The number that these digits are in decimal. Of other texts it may be any.
fn parsed(digits: &[u8]) -> Option<u32>
    ensures { (n : ℕ) → n < 2 ^ 32 → digits.now ≡ decimal n → result ≡ Some n }
{
    match text_of(digits) {
        Some(text) => text.parse().ok(),
        None => None,
    }
}

// The part whose number these digits are.
fn number(digits: &[u8]) -> Option<u32>
    ensures { result ≡ number_of digits.now }
{
    match parsed(digits) {
        Some(number) => {
            if is_part_number(number, digits) {
                Some(number)
            } else {
                None
            }
        }
        None => None,
    }
}

// The bytes in front, and the part whose number follows them after a `_`.
#[tactic(auto, unfolding(crate::specs::IdTexts::number_after))]
fn number_after<'a>(front: &'a [u8], back: &[u8]) -> Option<(&'a [u8], u32)>
    ensures { option_map (λ x. (x.0.now, x.1)) result ≡ number_after front.entry.now back.now }
{
    match back {
        [byte, digits @ ..] => {
            let number = number(digits)?;
            if *byte == b'_' {
                Some((front, number))
            } else {
                None
            }
        }
        [] => None,
    }
}

// The bytes before the last `_`, and the part whose number follows it.
#[tactic(auto, unfolding(crate::specs::IdTexts::numbered_part))]
fn numbered_part(text: &[u8]) -> Option<(&[u8], u32)>
    ensures { option_map (λ x. (x.0.now, x.1)) result ≡ numbered_part text.now }
{
    let count = count_after_underscore(text);
    if count < text.len() {
        let (front, back) = text.split_at(text.len() - (count + 1));
        number_after(front, back)
    } else {
        None
    }
}

// The bytes before the part, and the part.
#[tactic(auto, unfolding(crate::specs::IdTexts::part_of))]
fn part(text: &[u8]) -> Option<(&[u8], u32)>
    ensures { option_map (λ x. (x.0.now, x.1)) result ≡ part_of text.now }
{
    match text {
        [.., b'Z'] => Some((text, 0)),
        _ => numbered_part(text),
    }
}

// Whether the text is the instant's in full.
#[tactic(auto, using(crate::proofs::Instants::instant_in))]
fn is_in_full(ms: i64, text: &[u8]) -> bool
    requires { is_instant ms ≡ true }
    ensures { result ≡ bytes_eq (instant_text ms) text.now }
{
    iv_time::write(ms).as_slice() == text
}

// The instant that the text is in full.
#[tactic(auto, unfolding(crate::specs::IdTexts::full_instant))]
fn full_instant(text: &[u8]) -> Option<i64>
    ensures read { result ≡ full_instant text.now }
    ensures kept { IfSome result (λ ms. is_instant ms ≡ true) }
{
    let Ok(ms) = iv_time::parse(text) else {
        return None;
    };
    if is_in_full(ms, text) { Some(ms) } else { None }
}

// The bytes in front, and the instant that follows them in full after a `_`.
#[tactic(auto, unfolding(crate::specs::IdTexts::instant_after))]
fn instant_after<'a>(front: &'a [u8], back: &[u8]) -> Option<(&'a [u8], i64)>
    ensures read { option_map (λ x. (x.0.now, x.1)) result ≡ instant_after front.entry.now back.now }
    ensures kept { IfSome result (λ x. is_instant x.1 ≡ true) }
{
    match back {
        [byte, text @ ..] => {
            let ms = full_instant(text)?;
            if *byte == b'_' {
                Some((front, ms))
            } else {
                None
            }
        }
        [] => None,
    }
}

// The bytes before the last 25, and the instant that the last 24 are in full, after a `_`.
#[tactic(auto, unfolding(crate::specs::IdTexts::last_instant))]
fn last_instant(text: &[u8]) -> Option<(&[u8], i64)>
    ensures read { option_map (λ x. (x.0.now, x.1)) result ≡ last_instant text.now }
    ensures kept { IfSome result (λ x. is_instant x.1 ≡ true) }
{
    if text.len() >= 25 {
        let (front, back) = text.split_at(text.len() - 25);
        instant_after(front, back)
    } else {
        None
    }
}

// The source's bytes, the start, the end, the version and the part.
#[tactic(auto, unfolding(crate::specs::IdTexts::parts_of))]
pub fn parts(text: &[u8]) -> Option<(&[u8], i64, i64, i64, u32)>
    ensures read { option_map (λ x. (x.0.now, x.1, x.2, x.3, x.4)) result ≡ parts_of text.now }
    ensures start { IfSome result (λ x. is_instant x.1 ≡ true) }
    ensures end { IfSome result (λ x. is_instant x.2 ≡ true) }
    ensures version { IfSome result (λ x. is_instant x.3 ≡ true) }
{
    let (front, part) = part(text)?;
    let (front, version) = last_instant(front)?;
    let (front, end) = last_instant(front)?;
    let (source, start) = last_instant(front)?;
    Some((source, start, end, version, part))
}
